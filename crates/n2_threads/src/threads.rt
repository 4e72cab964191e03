//! A run of a board by threads.

ghost use Rattle.std.specs.Prelude.{◌≡◌, ◌≢◌, length, IfOk, IfErr, OnOk, None, Some};
ghost use Rattle.std.specs.List.{AllByRecursion};
ghost use Rattle.n2_elf.specs.Reading.{IsSized};
ghost use Rattle.n2_parts.specs.Valid.{IsValid};
ghost use Rattle.n2_board.specs.Placement.{open_fault};
ghost use Rattle.n2_threads.specs.Recorded.{IsRecorded};

use crate::rounds::run_rounds;
use n2_board::{Board, OpenFault};
use n2_elf::Image;
use n2_outside::Gate;
use n2_smp::{Machine, Ran};
use std::alloc::Global;
use std::sync::Wait;
use std::thread::Threads;

/// Runs a board until every actor is over, in the order that threads draw, or the first thing that does
/// not fit, as `Machine::open` has it. It takes all its memory before the first turn. It may wait.
pub fn run_threads<R: Threads + Wait + Sync, G: Gate + Sync>(
    rt: &R,
    alloc: Global,
    board: &Board,
    images: &[Image],
    gate: &G,
) -> Result<Ran, OpenFault>
    requires valid { IsValid board.now }
    requires images { length images.now ≡ length board.now.core }
    requires sized { AllByRecursion IsSized images.now }
    ensures recorded { IfOk result (λ ran. IsRecorded board.now images.now ran) }
    ensures fits { OnOk result (open_fault board.now images.now ≡ None) }
    ensures fault { IfErr result (λ fault. fault ≢ OpenFault.NoMemory → open_fault board.now images.now ≡ Some fault) }
{
    let mut machine = Machine::open(alloc, board, images)?;
    run_rounds(rt, board, &mut machine, gate);
    Ok(machine.finish())
}
