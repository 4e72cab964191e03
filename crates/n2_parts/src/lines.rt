//! The lines of all memories of a board as one list, in the board's order of memories.

ghost use Rattle.std.specs.Prelude.{◌≡◌, ◌<◌, ◌≤◌, ◌^◌};
ghost use Rattle.n2_parts.specs.MemoryLines as spec;

use crate::board::MemoryRow;

/// How many lines of 32 bytes memories have. Those of a valid board have at most 2^23.
pub fn line_count(memories: &[MemoryRow]) -> u32
    requires { spec.line_count memories.now < 2 ^ 32 }
    ensures { result ≡ spec.line_count memories.now }
{
    let mut count = 0;
    for row in memories {
        count += row.size / 32;
    }
    count
}

/// The place of a line among all lines of memories. A line that no memory has is at the number of
/// all lines, so a line is in a memory exactly where its place is below that.
#[inline(always)]
pub fn line_place(memories: &[MemoryRow], line: u32) -> u32
    requires { spec.line_count memories.now < 2 ^ 32 }
    ensures place { result ≡ spec.line_place memories.now line }
    ensures within { result ≤ spec.line_count memories.now }
{
    let mut before = 0;
    for row in memories {
        let first = row.base / 32;
        let count = row.size / 32;
        if first <= line && line - first < count {
            return before + (line - first);
        }
        before += count;
    }
    before
}
