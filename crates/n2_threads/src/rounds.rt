//! Rounds: threads draw a list of actors, and then the turns of the list are made.

ghost use Rattle.std.specs.Prelude.{◌≡◌, ◌+◌, false, true, length};
ghost use Rattle.n2_parts.specs.Valid.{IsValid};
ghost use Rattle.n2_order.specs.Choices as orders;
ghost use Rattle.n2_runs.specs.Machine.{Machine as Caching};
ghost use Rattle.n2_runs.specs.Knows.{IsBookKept};
ghost use Rattle.n2_smp.specs.Standing.{StandsFor};
ghost use Rattle.n2_driver.specs.Chosen.{overs};
ghost use Rattle.n2_driver.specs.Bounded.{IsBounded};
ghost use Rattle.n2_threads.specs.Rounds.{RunsNow, HasMoved, HasEnded, count_of};

use arrayvec::ArrayVec;
use n2_board::Board;
use n2_driver::most_turns;
use n2_outside::Gate;
use n2_smp::{Machine, Turned};
use std::sync::{Mutex, Wait};
use std::thread;
use std::thread::Threads;

/// The numbers of the actors of a board that are not over: at most eight cores and the device actor.
type Running = ArrayVec<u32, 9>;

/// The actor numbers that the threads of a round drew, in their order.
type Drawn = ArrayVec<u32, 4096>;

/// The actors that are not over, in rising order.
fn running(board: &Board, machine: &Machine) -> Running
    requires valid { IsValid board.now }
    requires board { machine.now.board ≡ board.now }
    ensures { (m : Caching) → StandsFor machine.now m → length m.cores ≡ length board.now.core → result.items ≡ orders.running 0 (overs board.now m) }
{
    n2_parts::laws::valid_boards();
    let actors = board.core.len() as u32 + 1;
    let mut running = ArrayVec::new();
    for actor in 0..actors {
        if !machine.over(actor) {
            running.push(actor);
        }
    }
    running
}

/// Adds the number of an actor to the list again and again, until it finds the list full.
fn draw<R: Wait, G: Gate>(rt: &R, actor: u32, drawn: &Mutex<Drawn>, gate: &G) {
    for _ in 0..4096 {
        gate.before(actor);
        let mut list = drawn.lock(rt);
        gate.inside(actor);
        if list.try_push(actor).is_err() {
            return;
        }
    }
}

/// Makes a turn of an actor, and answers whether it was made. A number of no actor, or of an actor that
/// is over, makes none.
fn make_turn(board: &Board, machine: &mut Machine, actor: u32) -> bool
    requires { machine.old.board ≡ board.now }
    ensures moved { (m : Caching) → StandsFor machine.old m → IsBookKept board.now machine.old.map m → HasMoved board.now machine.old.map m machine.new (count_of result) }
    ensures runs { (m : Caching) → StandsFor machine.old m → IsBookKept board.now machine.old.map m → RunsNow board.now m (length board.now.core + 1) actor → result ≡ true }
    ensures same { result ≡ false → machine.new ≡ machine.old }
    ensures board { machine.new.board ≡ machine.old.board }
    ensures map { machine.new.map ≡ machine.old.map }
{
    if actor as usize > board.core.len() {
        return false;
    }
    match machine.turn(actor) {
        Turned::Local => true,
        Turned::Acted(_act) => true,
        Turned::Over => false,
    }
}

/// Makes the turns of a list, and answers whether any was made.
fn make_turns(board: &Board, machine: &mut Machine, list: &[u32]) -> bool
    requires { machine.old.board ≡ board.now }
    ensures moved { (m : Caching) → StandsFor machine.old m → IsBookKept board.now machine.old.map m → HasMoved board.now machine.old.map m machine.new (count_of result) }
    ensures same { result ≡ false → machine.new ≡ machine.old }
    ensures board { machine.new.board ≡ machine.old.board }
    ensures map { machine.new.map ≡ machine.old.map }
{
    let mut made = false;
    for actor in list {
        if make_turn(board, machine, *actor) {
            made = true;
        }
    }
    made
}

/// A round: a thread for each actor that is not over draws, and then the turns of the list are made,
/// or one turn of the lowest of these actors where that made none.
fn make_round<R: Threads + Wait + Sync, G: Gate + Sync>(
    rt: &R,
    board: &Board,
    machine: &mut Machine,
    mut running: Running,
    lowest: u32,
    drawn: &Mutex<Drawn>,
    gate: &G,
)
    requires { machine.old.board ≡ board.now }
    ensures moved { (m : Caching) → StandsFor machine.old m → IsBookKept board.now machine.old.map m → RunsNow board.now m (length board.now.core + 1) lowest → HasMoved board.now machine.old.map m machine.new 1 }
    ensures board { machine.new.board ≡ machine.old.board }
    ensures map { machine.new.map ≡ machine.old.map }
{
    let threads = running.len().max(1);
    thread::for_each_mut(
        rt,
        running.as_mut_slice(),
        threads,
        &|_, actor| { draw(rt, *actor, drawn, gate) },
    );
    let mut list = drawn.lock(rt);
    if !make_turns(board, machine, list.as_slice()) {
        make_turn(board, machine, lowest);
    }
    list.clear();
}

/// Runs a machine round after round until every actor is over. Each round makes a turn, so there are no
/// more rounds than a run of the board has turns.
pub fn run_rounds<R: Threads + Wait + Sync, G: Gate + Sync>(
    rt: &R,
    board: &Board,
    machine: &mut Machine,
    gate: &G,
)
    requires valid { IsValid board.now }
    requires board { machine.old.board ≡ board.now }
    ensures ended { (m : Caching) → StandsFor machine.old m → IsBookKept board.now machine.old.map m → IsBounded board.now machine.old.map m → HasEnded board.now machine.old.map m machine.new }
    ensures board { machine.new.board ≡ machine.old.board }
    ensures map { machine.new.map ≡ machine.old.map }
{
    let drawn = Mutex::new(ArrayVec::new());
    for round in 0..most_turns(board) {
        let running = running(board, machine);
        let Some(lowest) = running.as_slice().first().copied() else {
            return;
        };
        make_round(rt, board, machine, running, lowest, &drawn, gate);
    }
}
