//! Whether images fit a board.

ghost use Rattle.std.specs.Prelude.{◌≡◌, ◌<◌, ◌≤◌, ◌^◌, IfOk, length};
ghost use Rattle.std.specs.List.{All};
ghost use Rattle.n2_parts.specs.Parts as parts;
ghost use Rattle.n2_parts.specs.Valid.{IsSmall};
ghost use Rattle.n2_board.specs.Placement as spec;

use crate::overlaps::first_overlap;
use crate::segments::LoadedSegment;
use n2_elf::Image;
use n2_parts::{Board, CoreRow, MemoryRow, bytes_from, is_inside, row};
use n2_word::NoMemory;
use std::alloc::Global;

/// Why images do not fit a board: a segment of that core's image is not inside one memory; that
/// core's first program counter is not a multiple of 4 in a memory; the images of two cores share a
/// line.
#[derive(Clone, Copy, Debug, PartialEq, Eq)]
pub enum OpenFault {
    Outside(u32),
    EntryOutside(u32),
    Overlap(u32, u32),
    NoMemory,
}

impl From<NoMemory> for OpenFault {
    ghost use Rattle.n2_board.specs.declared.placement.OpenFault.TheVariants as faults;

    ghost from_gives = { λ _ fault. fault ≡ faults.NoMemory };

    fn from(_refused: NoMemory) -> OpenFault {
        OpenFault::NoMemory
    }
}

/// The first segment that is not inside one memory.
fn outside(memories: &[MemoryRow], segments: &[LoadedSegment]) -> Option<OpenFault>
    ensures { result ≡ spec.outside memories.now segments.now }
{
    for s in segments {
        if !is_inside(memories, s.bytes) {
            return Some(OpenFault::Outside(s.core));
        }
    }
    None
}

fn first_pc(core: &CoreRow, entry: u32) -> u32
    ensures { result ≡ spec.first_pc core.now entry }
{
    match core.reset {
        Some(reset) => reset,
        None => entry,
    }
}

fn starts_inside(memories: &[MemoryRow], pc: u32) -> bool
    ensures { result ≡ spec.starts_inside memories.now pc }
{
    pc % 4 == 0 && is_inside(memories, bytes_from(pc, 4))
}

/// A core's first program counter that is not a multiple of 4 in a memory.
#[tactic(auto, unfolding(crate::specs::Placement::entry_fault))]
fn entry_fault(board: &Board, images: &[Image], k: u32) -> Option<OpenFault>
    ensures { result ≡ spec.entry_fault board.now images.now k }
{
    let core = row(board.core.as_slice(), k)?;
    let image = row(images, k)?;
    if starts_inside(board.memory.as_slice(), first_pc(core, image.entry)) {
        None
    } else {
        Some(OpenFault::EntryOutside(k))
    }
}

fn entry_faults(board: &Board, images: &[Image], count: u32) -> Option<OpenFault>
    ensures { result ≡ parts.first_from (λ k. spec.entry_fault board.now images.now k) 0 count }
{
    for k in 0..count {
        match entry_fault(board, images, k) {
            Some(fault) => return Some(fault),
            None => (),
        }
    }
    None
}

/// The first fault: a segment outside, an entry outside, images that share a line.
#[tactic(auto, unfolding(crate::specs::Placement::first_placement_fault))]
pub fn first_placement_fault(
    alloc: Global,
    board: &Board,
    images: &[Image],
    segments: &[LoadedSegment],
) -> Result<Option<OpenFault>, NoMemory>
    requires small { IsSmall board.now }
    requires cores { All (λ s. s.core < length board.now.core) segments.now }
    ensures { IfOk result (λ fault. fault ≡ spec.first_placement_fault board.now images.now segments.now) }
{
    let count = board.core.len() as u32;
    match outside(board.memory.as_slice(), segments) {
        Some(fault) => return Ok(Some(fault)),
        None => (),
    }
    match entry_faults(board, images, count) {
        Some(fault) => return Ok(Some(fault)),
        None => (),
    }
    first_overlap(alloc, segments, count)
}
