//! Both machines of one board: opened, and compared.

ghost use Rattle.std.specs.Prelude.{◌≡◌, ◌<◌, ◌≤◌, ◌^◌, length, IfOk, OnOk, None};
ghost use Rattle.std.specs.List.{AllByRecursion};
ghost use Rattle.n2_elf.specs.Reading.{IsSized};
ghost use Rattle.n2_parts.specs.Valid.{IsValid};
ghost use Rattle.n2_parts.specs.MemoryLines as lines;
ghost use Rattle.n2_board.specs.AddressMap.{address_map};
ghost use Rattle.n2_board.specs.Placement.{open_fault};
ghost use Rattle.n2_runs.specs.Machine.{start};
ghost use Rattle.n2_runs.specs.Knows.{IsBookKept};
ghost use Rattle.n2_smp.specs.Standing.{StandsFor};

use crate::counts::Counts;
use n2_board::{Board, Layout, OpenFault, Stop};
use n2_bus::Bus;
use n2_cases::NoAnswer;
use n2_elf::Image;
use n2_flat::Flat;
use n2_parts::{MemoryRow, line_count, line_place};
use n2_smp::Machine;
use std::alloc::Global;

fn no_answer(fault: &OpenFault) -> NoAnswer {
    match fault {
        OpenFault::NoMemory => NoAnswer::NoMemory,
        _ => NoAnswer::NoCase,
    }
}

/// The layout of a board with images that fit it.
pub fn layout_of(alloc: Global, board: &Board, images: &[Image]) -> Result<Layout, NoAnswer>
    requires valid { IsValid board.now }
    requires images { length images.now ≡ length board.now.core }
    ensures layout { IfOk result (λ layout. layout ≡ address_map board.now images.now) }
    ensures fits { OnOk result (open_fault board.now images.now ≡ None) }
{
    match Layout::open(alloc, board, images) {
        Ok(layout) => Ok(layout),
        Err(fault) => Err(no_answer(&fault)),
    }
}

/// The caching machine of a board with images that fit it, before its first turn.
pub fn machine_of(alloc: Global, board: &Board, images: &[Image]) -> Result<Machine, NoAnswer>
    requires valid { IsValid board.now }
    requires images { length images.now ≡ length board.now.core }
    requires sized { AllByRecursion IsSized images.now }
    ensures board { IfOk result (λ machine. machine.board ≡ board.now) }
    ensures map { IfOk result (λ machine. machine.map ≡ address_map board.now images.now) }
    ensures stands { IfOk result (λ machine. StandsFor machine (start board.now images.now)) }
    ensures kept { OnOk result (IsBookKept board.now (address_map board.now images.now) (start board.now images.now)) }
{
    match Machine::open(alloc, board, images) {
        Ok(machine) => Ok(machine),
        Err(fault) => Err(no_answer(&fault)),
    }
}

/// Whether all cores have stopped.
pub fn all_stopped(machine: &Machine, cores: u32) -> bool
    requires { cores ≤ length machine.now.board.core }
{
    for k in 0..cores {
        if !machine.over(k) {
            return false;
        }
    }
    true
}

/// Counts why cores stopped.
pub fn count_stops(machine: &Machine, cores: u32, counts: &mut Counts)
    requires { cores ≤ length machine.now.board.core }
{
    for k in 0..cores {
        counts.add_stop(&machine.stop(k));
    }
}

/// Whether a core of the caching machine stopped as that of the flat machine did, in which turns and
/// entries of a journal have no end.
fn same_stop(caching: &Option<Stop>, flat: &Option<Stop>) -> bool {
    match caching {
        Some(Stop::Spent) | Some(Stop::LogFull) => flat.is_none(),
        _ => caching == flat,
    }
}

fn agrees_at(machine: &Machine, flat: &Flat, core: u32) -> bool
    requires caching { core < length machine.now.board.core }
    requires flat { core < length flat.now.cores }
{
    let caching = machine.core(core);
    caching.regs() == flat.regs(core) && same_stop(&caching.stop(), &flat.stop(core))
}

/// Whether each core has the same registers and the same stop in both.
pub fn agree(machine: &Machine, flat: &Flat, cores: u32) -> bool
    requires caching { cores ≤ length machine.now.board.core }
    requires flat { cores ≤ length flat.now.cores }
{
    for k in 0..cores {
        if !agrees_at(machine, flat, k) {
            return false;
        }
    }
    true
}

/// The words of a line of the memory behind the caches, if a memory has it.
pub fn line_behind(bus: &Bus, line: u32) -> Option<[u32; 8]> {
    if bus.has_line(line) {
        Some(bus.line(line))
    } else {
        None
    }
}

/// The words of a line of the flat machine, if one of its memories has it.
pub fn flat_line(memories: &[MemoryRow], flat: &Flat, line: u32) -> Option<[u32; 8]>
    requires few { lines.line_count memories.now < 2 ^ 32 }
    requires memories { flat.now.common.wiring.memories ≡ memories.now }
{
    if line_place(memories, line) < line_count(memories) {
        Some(flat.line(line))
    } else {
        None
    }
}
