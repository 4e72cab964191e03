//! Turns with the flat machine beside the caching machine, and the run that a journal tells.

ghost use Rattle.std.specs.Prelude.{◌≡◌, ℕ, ◌≤◌, ◌++◌, ◌∷◌, [], List, length, replicate, All, IfOk, OnOk};
ghost use Rattle.n2_memory.specs.Memories.{Contents};
ghost use Rattle.n2_runs.specs.Machine.{Machine as Caching, turn, is_over, run, acts};
ghost use Rattle.n2_runs.specs.FlatRun.{Flat as FlatValue, flat as flat_after};
ghost use Rattle.n2_runs.specs.Along.{IsAlong, after};
ghost use Rattle.n2_runs.specs.Knows.{IsBookKept};
ghost use Rattle.n2_runs.specs.Recorded.{actors_in, actors_of, HasCounts};
ghost use Rattle.n2_smp.specs.Standing.{StandsFor, answer_of};
ghost use Rattle.n2_smp.specs.Replayed.{Stands};
ghost use Rattle.n2_flat.specs.State.{IsWhole, machine_of};
ghost use Rattle.n2_driver.specs.Beside.{AreBeside, AreUnderway};

use n2_board::Layout;
use n2_flat::Flat;
use n2_journal::{Journal, order};
use n2_smp::{Machine, Turned};
use n2_word::NoMemory;
use std::alloc::Global;

/// A turn of an actor, and its act on the flat machine. Answers what the turn came to. The turn itself
/// takes no memory; its act may, for the flat machine's past events, and is not made after want of memory.
pub fn turn_beside(
    machine: &mut Machine,
    flat: &mut Flat,
    layout: &Layout,
    actor: u32,
) -> Result<Turned, NoMemory>
    requires beside { AreBeside machine.old layout.now flat.old }
    requires actor { actor ≤ length machine.old.board.core }
    ensures answer { IfOk result (λ turned. (m : Caching) → StandsFor machine.old m → IsBookKept machine.old.board machine.old.map m → turned ≡ answer_of (is_over machine.old.board m actor) (turn machine.old.board machine.old.map m actor).act) }
    ensures stands { (m : Caching) → StandsFor machine.old m → IsBookKept machine.old.board machine.old.map m → StandsFor machine.new (turn machine.old.board machine.old.map m actor).machine }
    ensures flat { OnOk result ((m : Caching) → StandsFor machine.old m → IsBookKept machine.old.board machine.old.map m → machine_of flat.new ≡ after machine.old.board machine.old.map (machine_of flat.old) (turn machine.old.board machine.old.map m actor).act) }
    ensures underway { OnOk result ((end : Caching) (flat_end : FlatValue) (left : List ℕ) → AreUnderway end flat_end machine.old (machine_of flat.old) (actor ∷ left) → AreUnderway end flat_end machine.new (machine_of flat.new) left) }
    ensures beside { AreBeside machine.new layout.now flat.new }
    ensures board { machine.new.board ≡ machine.old.board }
    ensures map { machine.new.map ≡ machine.old.map }
    ensures flat_board { flat.new.board ≡ flat.old.board }
{
    match machine.turn(actor) {
        Turned::Acted(act) => {
            flat.act(layout, &act)?;
            Ok(Turned::Acted(act))
        }
        Turned::Local => Ok(Turned::Local),
        Turned::Over => Ok(Turned::Over),
    }
}

/// So many turns of an actor, each with its act.
fn turns_beside(
    machine: &mut Machine,
    flat: &mut Flat,
    layout: &Layout,
    actor: u32,
    count: u64,
) -> Result<(), NoMemory>
    requires beside { AreBeside machine.old layout.now flat.old }
    requires actor { actor ≤ length machine.old.board.core }
    ensures underway { OnOk result ((end : Caching) (flat_end : FlatValue) (left : List ℕ) → AreUnderway end flat_end machine.old (machine_of flat.old) (replicate count actor ++ left) → AreUnderway end flat_end machine.new (machine_of flat.new) left) }
    ensures beside { AreBeside machine.new layout.now flat.new }
    ensures board { machine.new.board ≡ machine.old.board }
    ensures map { machine.new.map ≡ machine.old.map }
    ensures flat_board { flat.new.board ≡ flat.old.board }
{
    for _made in 0..count {
        turn_beside(machine, flat, layout, actor)?;
    }
    Ok(())
}

/// Groups of turns, each of one actor, one group after another.
fn groups_beside(
    machine: &mut Machine,
    flat: &mut Flat,
    layout: &Layout,
    groups: &[(u32, u64)],
) -> Result<(), NoMemory>
    requires beside { AreBeside machine.old layout.now flat.old }
    requires actors { All (λ group. group.0 ≤ length machine.old.board.core) groups.now }
    ensures underway { OnOk result ((end : Caching) (flat_end : FlatValue) → AreUnderway end flat_end machine.old (machine_of flat.old) (actors_in groups.now) → AreUnderway end flat_end machine.new (machine_of flat.new) []) }
    ensures beside { AreBeside machine.new layout.now flat.new }
    ensures board { machine.new.board ≡ machine.old.board }
    ensures map { machine.new.map ≡ machine.old.map }
    ensures flat_board { flat.new.board ≡ flat.old.board }
{
    for group in groups {
        turns_beside(machine, flat, layout, group.0, group.1)?;
    }
    Ok(())
}

/// Runs a machine by the order that a journal tells, and has the flat machine make the act of each turn as
/// the turn is made: no list of acts is kept. The flat machine is of the same board and layout. The order
/// takes memory, and so do the flat machine's past events; after want of memory both have made a part of
/// the run. The counts of a journal that is that of a run of the board are within the limits.
pub fn run_beside(
    alloc: Global,
    machine: &mut Machine,
    flat: &mut Flat,
    layout: &Layout,
    journal: &Journal,
) -> Result<(), NoMemory>
    requires board { flat.old.board ≡ machine.old.board }
    requires map { layout.now ≡ machine.old.map }
    requires whole { IsWhole layout.now flat.old }
    requires stands { (m : Caching) × Stands machine.old m }
    requires counts { HasCounts (length machine.old.board.core) journal.now.content }
    ensures stands { OnOk result ((m : Caching) → StandsFor machine.old m → IsBookKept machine.old.board machine.old.map m → Stands machine.new (run machine.old.board machine.old.map m (actors_of journal.now.content))) }
    ensures flat { OnOk result ((m : Caching) → StandsFor machine.old m → IsBookKept machine.old.board machine.old.map m → machine_of flat.new ≡ flat_after machine.old.board machine.old.map (machine_of flat.old) (acts machine.old.board machine.old.map m (actors_of journal.now.content))) }
    ensures agrees { OnOk result ((first : Contents) (m : Caching) → StandsFor machine.old m → IsBookKept machine.old.board machine.old.map m → IsAlong machine.old.board machine.old.map first m (machine_of flat.old) → IsAlong machine.old.board machine.old.map first (run machine.old.board machine.old.map m (actors_of journal.now.content)) (machine_of flat.new)) }
    ensures whole { IsWhole layout.now flat.new }
    ensures board { machine.new.board ≡ machine.old.board }
    ensures map { machine.new.map ≡ machine.old.map }
    ensures flat_board { flat.new.board ≡ flat.old.board }
{
    let groups = order(alloc, journal)?;
    groups_beside(machine, flat, layout, groups.as_slice())
}
