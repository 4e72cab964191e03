//! The report of a run.

ghost use Rattle.std.specs.Prelude.{◌≡◌, ◌<◌, ◌+◌, ◌*◌, ◌^◌, ℕ, List, [], ◌∷◌, ◌++◌, map, length, IfOk, IfSome, IfNone, OnOk, Some};
ghost use Rattle.n2_word.specs.Lines.{line as line_number};
ghost use Rattle.n2_parts.specs.Valid.{IsValid};
ghost use Rattle.n2_parts.specs.MemoryLines.{HasLine};
ghost use Rattle.n2_bus.specs.Wiring.{wiring_of};
ghost use Rattle.n2_cpu.specs.declared.state.State.{State};
ghost use Rattle.n2_runs.specs.Machine.{Machine as Caching};
ghost use Rattle.n2_smp.specs.Standing.{RanStandsFor};
ghost use Rattle.n2_report.specs.Flat.{uart_of};
ghost use Rattle.n2_report.specs.OfFlat.{dumped_lines, dumped as lines_dumped};
ghost use Rattle.n2_report.specs.OfRun as spec;
ghost use Rattle.n2_report.specs.Ran as ran_spec;

use crate::ends::{CoreEnd, MemoryLine, UartEnd};
use crate::report::report_text;
use crate::stops::status;
use crate::transfers::Transfers;
use n2_board::{Board, Layout, Place, Stop};
use n2_bus::{Bus, Request};
use n2_cpu::Core;
use n2_journal::Entry;
use n2_parts::{DumpRow, PartKind, UartRow};
use n2_smp::Ran;
use n2_text::Items;
use n2_word::{NoMemory, line_of};
use std::alloc::Global;

/// Where each core stands.
fn core_ends(alloc: Global, cores: &[Core]) -> Result<Vec<CoreEnd>, NoMemory>
    ensures { IfOk result (λ ends. ends.items ≡ map ran_spec.end_of cores.now) }
{
    let mut ends = Vec::new(alloc);
    for core in cores {
        ends.push(CoreEnd {
            regs: core.regs(),
            stop: core.stop(),
        })?;
    }
    Ok(ends)
}

/// The turns of each core.
fn core_turns(alloc: Global, cores: &[Core]) -> Result<Vec<u64>, NoMemory>
    ensures { IfOk result (λ turns. turns.items ≡ map ran_spec.turns_of cores.now) }
{
    let mut turns = Vec::new(alloc);
    for core in cores {
        turns.push(core.turns())?;
    }
    Ok(turns)
}

/// Whether a write at a place is one of the data register of a UART.
fn is_data_of(place: &Place, uart: u32) -> bool
    ensures { result ≡ ran_spec.is_data_of place.now uart }
{
    match place {
        Place::Device { part, offset } => {
            part.kind == PartKind::Uart && part.index == uart && *offset == 0
        }
        Place::Memory | Place::Nothing => false,
    }
}

/// The byte that a transfer gave a UART, if it did.
fn byte_given(layout: &Layout, uart: u32, entry: &Entry) -> Option<u8>
    ensures { ran_spec.listed result ≡ spec.given_by layout.now uart entry.now.request entry.now.reply.took }
{
    let Request::Write(address, _width, value) = entry.request else {
        return None;
    };
    if entry.reply.took && is_data_of(&layout.place(address), uart) {
        Some((value % 256) as u8)
    } else {
        None
    }
}

/// The bytes that a journal's transfers gave a UART.
fn bytes_given(
    alloc: Global,
    layout: &Layout,
    uart: u32,
    entries: &[Entry],
) -> Result<Items<u8>, NoMemory>
    ensures { IfOk result (λ bytes. bytes ≡ spec.given_to layout.now uart entries.now) }
{
    let mut bytes = Items::new(alloc);
    for entry in entries {
        if let Some(byte) = byte_given(layout, uart, entry) {
            bytes.push(byte)?;
        }
    }
    Ok(bytes)
}

/// The bytes that each of some UARTs was given.
fn all_given(
    alloc: Global,
    layout: &Layout,
    uarts: usize,
    entries: &[Entry],
) -> Result<Items<Items<u8>>, NoMemory>
    requires { uarts < 2 ^ 32 }
    ensures { IfOk result (λ all. all ≡ ran_spec.all_given layout.now entries.now 0 uarts) }
{
    let mut all = Items::new(alloc);
    for i in 0..uarts {
        all.push(bytes_given(alloc, layout, i as u32, entries)?)?;
    }
    Ok(all)
}

/// UARTs with what they were given.
fn uart_ends<'a>(
    alloc: Global,
    rows: &'a [UartRow],
    given: &'a [Items<u8>],
) -> Result<Vec<UartEnd<'a>>, NoMemory>
    requires { length given.now ≡ length rows.now }
    ensures { IfOk result (λ ends. map uart_of ends.items ≡ ran_spec.named rows.now given.now) }
{
    let mut ends = Vec::new(alloc);
    for (i, row) in rows.iter().enumerate() {
        ends.push(UartEnd {
            name: row.name.as_str(),
            sent: given[i].as_slice(),
        })?;
    }
    Ok(ends)
}

/// Puts the lines of a row.
fn put_dumped(out: &mut Vec<MemoryLine>, bus: &Bus, row: &DumpRow) -> Result<(), NoMemory>
    requires there { (j : ℕ) → j < row.now.lines → HasLine bus.now.wiring.memories (line_number (row.now.at + 32 * j)) × (row.now.at + 32 * j < 2 ^ 32) }
    ensures { OnOk result (out.new.items ≡ out.old.items ++ dumped_lines bus.now.shared.memory row.now.at 0 row.now.lines) }
{
    for j in 0..row.lines {
        let at = row.at + 32 * j;
        out.push(MemoryLine {
            at,
            words: bus.line(line_of(at)),
        })?;
    }
    Ok(())
}

/// The lines that the board dumps.
fn dumped(alloc: Global, board: &Board, bus: &Bus) -> Result<Vec<MemoryLine>, NoMemory>
    requires valid { IsValid board.now }
    requires memories { bus.now.wiring.memories ≡ board.now.memory }
    ensures { IfOk result (λ lines. lines.items ≡ lines_dumped bus.now.shared.memory board.now.dump) }
{
    n2_parts::laws::valid_boards();
    n2_parts::laws::memory_lines();
    let mut lines = Vec::new(alloc);
    for row in board.dump.as_slice() {
        put_dumped(&mut lines, bus, row)?;
    }
    Ok(lines)
}

/// The report of a run of a board: its cores with their registers and stops, the bytes that its UARTs
/// were given, how each core ended and after how many turns, the transfers by their kinds, and the
/// lines of main memory that the board dumps. The layout is that of the board with its images.
pub fn run_report(
    alloc: Global,
    board: &Board,
    layout: &Layout,
    ran: &Ran,
) -> Result<Vec<u8>, NoMemory>
    requires valid { IsValid board.now }
    requires memories { ran.now.bus.wiring.memories ≡ board.now.memory }
    ensures { IfOk result (λ text. (m : Caching) → RanStandsFor board.now layout.now ran.now m → length m.cores ≡ length board.now.core → text.items ≡ spec.run_report board.now layout.now m) }
{
    n2_parts::laws::valid_boards();
    let entries = ran.journal.entries();
    let given = all_given(alloc, layout, board.uart.len(), entries)?;
    let cores = core_ends(alloc, ran.cores.as_slice())?;
    let turns = core_turns(alloc, ran.cores.as_slice())?;
    let uarts = uart_ends(alloc, board.uart.as_slice(), given.as_slice())?;
    let lines = dumped(alloc, board, &ran.bus)?;
    let transfers = Transfers::of_entries(entries);
    report_text(alloc, &cores, &turns, &uarts, &transfers, &lines)
}

/// Why each core of a run stopped.
fn stops(alloc: Global, ran: &Ran) -> Result<Vec<Option<Stop>>, NoMemory>
    ensures { IfOk result (λ stops. stops.items ≡ map ran_spec.stop_of ran.now.cores) }
{
    let mut stops = Vec::new(alloc);
    for core in ran.cores.as_slice() {
        stops.push(core.stop())?;
    }
    Ok(stops)
}

/// The status of a run, by why its cores stopped.
pub fn run_status(alloc: Global, board: &Board, layout: &Layout, ran: &Ran) -> Result<u8, NoMemory>
    ensures status { IfOk result (λ status. (m : Caching) → RanStandsFor board.now layout.now ran.now m → length m.cores ≡ length board.now.core → status ≡ spec.run_status m) }
    ensures small { IfOk result (λ status. status < 3) }
{
    let stops = stops(alloc, ran)?;
    Ok(status(&stops))
}
