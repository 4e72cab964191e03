//! A run by an order.

ghost use Rattle.std.specs.Prelude.{◌≡◌, ◌+◌, ◌<◌, ◌≤◌, ◌^◌, IfOk, length, true};
ghost use Rattle.n2_parts.specs.Valid.{IsValid};
ghost use Rattle.n2_runs.specs.Machine.{Machine as Caching, run, is_over};
ghost use Rattle.n2_runs.specs.Knows.{IsBookKept};
ghost use Rattle.n2_smp.specs.Standing.{StandsFor};
ghost use Rattle.n2_driver.specs.Chosen as spec;

use n2_order::Chooser;
use n2_parts::Board;
use n2_smp::Machine;
use n2_word::NoMemory;
use std::alloc::Global;

/// The most turns that a run of a board can have: the turns of each core, and an event of the devices
/// for each entry of the journal.
pub fn most_turns(board: &Board) -> u64
    requires { IsValid board.now }
    ensures { result ≡ spec.most_turns board.now }
{
    n2_parts::laws::valid_boards();
    board.core.len() as u64 * board.turns + u64::from(board.journal)
}

/// Whether each actor is over: the cores in their order, and then the device actor.
pub fn who_is_over(alloc: Global, board: &Board, machine: &Machine) -> Result<Vec<bool>, NoMemory>
    requires valid { IsValid board.now }
    requires board { machine.now.board ≡ board.now }
    ensures over { IfOk result (λ over. (m : Caching) → StandsFor machine.now m → length m.cores ≡ length board.now.core → over.items ≡ spec.overs board.now m) }
    ensures count { IfOk result (λ over. length over.items ≡ length board.now.core + 1) }
{
    n2_parts::laws::valid_boards();
    let actors = board.core.len() as u32 + 1;
    let mut over = Vec::new(alloc);
    for actor in 0..actors {
        over.push(machine.over(actor))?;
    }
    Ok(over)
}

/// Whether the device actor is over, by whether it was before the turn that was made: once it is, it stays
/// so.
#[inline(always)]
fn devices_over(machine: &Machine, was: bool, devices: u32) -> bool
    requires { devices ≤ length machine.now.board.core }
    ensures { (m : Caching) → StandsFor machine.now m → length m.cores ≡ length machine.now.board.core → (was ≡ true → is_over machine.now.board m devices ≡ true) → result ≡ is_over machine.now.board m devices }
{
    if was {
        return true;
    }
    machine.over(devices)
}

/// Runs a machine by an order until all actors are over. `over` tells before the first turn who is over,
/// and is kept while the machine runs. A turn takes no memory.
pub fn run_by(machine: &mut Machine, board: &Board, chooser: &mut Chooser, over: &mut [bool])
    requires valid { IsValid board.now }
    requires board { machine.old.board ≡ board.now }
    requires actors { chooser.old.actors ≡ length board.now.core + 1 }
    requires over { length over.old ≡ length board.now.core + 1 }
    ensures stands { (m : Caching) → StandsFor machine.old m → IsBookKept board.now machine.old.map m → over.old ≡ spec.overs board.now m → StandsFor machine.new (run board.now machine.old.map m (spec.chosen_order board.now machine.old.map m chooser.old.state)) }
    ensures board { machine.new.board ≡ machine.old.board }
    ensures map { machine.new.map ≡ machine.old.map }
{
    n2_parts::laws::valid_boards();
    let devices = board.core.len() as u32;
    for turn in 0..most_turns(board) {
        let Some(actor) = chooser.next(over) else {
            return;
        };
        machine.turn(actor);
        over[actor as usize] = machine.over(actor);
        over[devices as usize] = devices_over(machine, over[devices as usize], devices);
    }
}
