//! Whether the images of two cores share a line.

ghost use Rattle.std.specs.Prelude.{◌≡◌, ℕ, ◌+◌, ◌*◌, ◌<◌, ◌≤◌, ◌&&◌, ◌||◌, ◌==◌, nat_lt, min, max, if◌then◌else◌, false, IfOk, length, slice_index, slice_index_or, slice_set};
ghost use Rattle.std.specs.List.{All};
ghost use Rattle.std.specs.List.Sorted.{IsNonDecreasingBy, IsPermutation};
ghost use Rattle.n2_parts.specs.Parts.{first_from};
ghost use Rattle.n2_board.specs.Placement as spec;

use crate::placement::OpenFault;
use crate::segments::LoadedSegment;
use n2_word::NoMemory;
use std::alloc::Global;

/// The segments in the order of their first lines.
fn by_first_line(alloc: Global, segments: &[LoadedSegment]) -> Result<Vec<LoadedSegment>, NoMemory>
    ensures same { IfOk result (λ sorted. IsPermutation segments.now sorted.items) }
    ensures rising { IfOk result (λ sorted. IsNonDecreasingBy (λ s. s.lines.from) sorted.items) }
{
    let mut sorted = Vec::from_slice(alloc, segments)?;
    sorted.sort_unstable_by_key(|s| s.lines.from);
    Ok(sorted)
}

/// The place of a pair of cores in a table of all pairs of eight.
fn pair(a: u32, b: u32) -> usize
    requires a { a < 8 }
    requires b { b < 8 }
    ensures { result ≡ 8 * min a b + max a b }
{
    8 * a.min(b) as usize + a.max(b) as usize
}

/// Pairs a segment's core with each core whose segments so far end behind the line on which this one
/// begins.
fn note_pairs(met: &mut [bool; 64], ends: &[u64; 8], segment: LoadedSegment)
    requires { segment.core < 8 }
    ensures { (a b : ℕ) → a < b → b < 8 → slice_index_or met.new (8 * a + b) false
        ≡ (slice_index_or met.old (8 * a + b) false
        || (segment.core == b && nat_lt segment.lines.from (min segment.lines.end (slice_index ends.now a)))
        || (segment.core == a && nat_lt segment.lines.from (min segment.lines.end (slice_index ends.now b)))) }
{
    for core in 0..8u32 {
        if segment.lines.from < segment.lines.end.min(ends[core as usize]) {
            met[pair(core, segment.core)] = true;
        }
    }
}

/// Notes the line behind a segment, for its core.
fn note_end(ends: &mut [u64; 8], segment: LoadedSegment)
    requires { segment.core < 8 }
    ensures { ends.new ≡ slice_set ends.old segment.core (max (slice_index ends.old segment.core) segment.lines.end) }
{
    let core = segment.core as usize;
    ends[core] = ends[core].max(segment.lines.end);
}

/// The pairs of cores whose segments share a line. The segments are in the order of their first
/// lines, so of two that share one the later begins before the earlier ends.
fn pairs_met(sorted: &[LoadedSegment]) -> [bool; 64]
    requires rising { IsNonDecreasingBy (λ s. s.lines.from) sorted.now }
    requires cores { All (λ s. s.core < 8) sorted.now }
    ensures { (a b : ℕ) → a < b → b < 8 → slice_index_or result (8 * a + b) false ≡ spec.images_meet a b sorted.now }
{
    let mut ends = [0u64; 8];
    let mut met = [false; 64];
    for segment in sorted {
        note_pairs(&mut met, &ends, *segment);
        note_end(&mut ends, *segment);
    }
    met
}

/// The first core above `a` that a table pairs with it.
fn overlap_with(met: &[bool; 64], a: u32, count: u32) -> Option<OpenFault>
    requires a { a < 8 }
    requires count { count ≤ 8 }
    ensures { result ≡ first_from (λ b. if nat_lt a b && slice_index_or met.now (8 * a + b) false then Some (OpenFault.Overlap a b) else None) 0 count }
{
    for b in 0..count {
        if a < b && met[pair(a, b)] {
            return Some(OpenFault::Overlap(a, b));
        }
    }
    None
}

/// The first pair of a table.
fn overlap_in(met: &[bool; 64], count: u32) -> Option<OpenFault>
    requires { count ≤ 8 }
    ensures { result ≡ first_from (λ a. first_from (λ b. if nat_lt a b && slice_index_or met.now (8 * a + b) false then Some (OpenFault.Overlap a b) else None) 0 count) 0 count }
{
    for a in 0..count {
        match overlap_with(met, a, count) {
            Some(fault) => return Some(fault),
            None => (),
        }
    }
    None
}

/// The first pair of cores whose images share a line.
pub fn first_overlap(
    alloc: Global,
    segments: &[LoadedSegment],
    count: u32,
) -> Result<Option<OpenFault>, NoMemory>
    requires count { count ≤ 8 }
    requires cores { All (λ s. s.core < count) segments.now }
    ensures { IfOk result (λ fault. fault ≡ first_from (λ i. first_from (λ j. spec.overlap_of segments.now i j) 0 count) 0 count) }
{
    let sorted = by_first_line(alloc, segments)?;
    Ok(overlap_in(&pairs_met(&sorted), count))
}
