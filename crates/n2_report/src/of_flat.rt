//! The flat report of a flat machine.

ghost use Rattle.std.specs.Prelude.{◌≡◌, ◌<◌, ◌+◌, ◌*◌, ◌^◌, ℕ, ◌++◌, map, IfOk, OnOk};
ghost use Rattle.n2_word.specs.Lines.{line as line_number};
ghost use Rattle.n2_parts.specs.MemoryLines.{HasLine};
ghost use Rattle.n2_flat.specs.State.{machine_of};
ghost use Rattle.n2_report.specs.Flat.{uart_of};
ghost use Rattle.n2_report.specs.OfFlat as spec;

use crate::ends::{CoreEnd, MemoryLine, UartEnd};
use crate::flat::flat_text;
use n2_flat::Flat;
use n2_parts::{Board, DumpRow};
use n2_word::{NoMemory, line_of};
use std::alloc::Global;

/// Where each core stands.
fn core_ends(alloc: Global, board: &Board, flat: &Flat) -> Result<Vec<CoreEnd>, NoMemory>
    requires { spec.IsOf board.now flat.now }
    ensures { IfOk result (λ ends. ends.items ≡ map spec.end_of (machine_of flat.now).cores) }
{
    n2_parts::laws::valid_boards();
    let mut ends = Vec::new(alloc);
    for k in 0..board.core.len() {
        ends.push(CoreEnd {
            regs: flat.regs(k as u32),
            stop: flat.stop(k as u32),
        })?;
    }
    Ok(ends)
}

/// Each UART of the board, with what was sent to it.
fn uart_ends<'a>(
    alloc: Global,
    board: &'a Board,
    flat: &'a Flat,
) -> Result<Vec<UartEnd<'a>>, NoMemory>
    requires { spec.IsOf board.now flat.now }
    ensures { IfOk result (λ ends. map uart_of ends.items ≡ spec.uarts_from 0 board.now.uart flat.now.common.world.book.sent) }
{
    n2_parts::laws::valid_boards();
    let mut ends = Vec::new(alloc);
    for (i, row) in board.uart.as_slice().iter().enumerate() {
        ends.push(UartEnd {
            name: row.name.as_str(),
            sent: flat.output(i as u32),
        })?;
    }
    Ok(ends)
}

/// Puts the lines of a row.
fn put_dumped(out: &mut Vec<MemoryLine>, flat: &Flat, row: &DumpRow) -> Result<(), NoMemory>
    requires there { (j : ℕ) → j < row.now.lines → HasLine flat.now.common.wiring.memories (line_number (row.now.at + 32 * j)) × (row.now.at + 32 * j < 2 ^ 32) }
    ensures { OnOk result (out.new.items ≡ out.old.items ++ spec.dumped_lines flat.now.common.world.memory row.now.at 0 row.now.lines) }
{
    for j in 0..row.lines {
        let at = row.at + 32 * j;
        out.push(MemoryLine {
            at,
            words: flat.line(line_of(at)),
        })?;
    }
    Ok(())
}

/// The lines that the board dumps.
fn dumped(alloc: Global, board: &Board, flat: &Flat) -> Result<Vec<MemoryLine>, NoMemory>
    requires { spec.IsOf board.now flat.now }
    ensures { IfOk result (λ lines. lines.items ≡ spec.dumped flat.now.common.world.memory board.now.dump) }
{
    n2_parts::laws::valid_boards();
    n2_parts::laws::memory_lines();
    let mut lines = Vec::new(alloc);
    for row in board.dump.as_slice() {
        put_dumped(&mut lines, flat, row)?;
    }
    Ok(lines)
}

/// The flat report of the flat machine of a board: its cores with their registers and stops, the
/// bytes that were sent to its UARTs, and the lines of the flat memory that the board dumps. A flat
/// machine that was opened from the board is one of it.
#[tactic(auto, unfolding(crate::specs::OfFlat::flat_report))]
pub fn flat_report(alloc: Global, board: &Board, flat: &Flat) -> Result<Vec<u8>, NoMemory>
    requires { spec.IsOf board.now flat.now }
    ensures { IfOk result (λ text. text.items ≡ spec.flat_report board.now (machine_of flat.now)) }
{
    let cores = core_ends(alloc, board, flat)?;
    let uarts = uart_ends(alloc, board, flat)?;
    let lines = dumped(alloc, board, flat)?;
    flat_text(alloc, &cores, &uarts, &lines)
}
