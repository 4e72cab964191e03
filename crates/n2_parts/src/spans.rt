//! Where parts lie.

ghost use Rattle.std.specs.Prelude.{◌≡◌, ◌*◌, ◌<◌, ◌^◌};
ghost use Rattle.n2_parts.specs.Rules as spec;

use crate::board::{Board, BoardFault, MemoryRow, Part, PartKind};
use crate::parts::{row, same_part};

/// The bytes from an address up to another.
#[derive(Clone, Copy, Debug, PartialEq, Eq)]
pub struct Span {
    pub from: u64,
    pub end: u64,
}

/// The two places of a part; the second has no byte where the part has one place.
#[derive(Clone, Copy, Debug, PartialEq, Eq)]
pub struct Spans {
    pub first: Span,
    pub second: Span,
}

/// The arrays of memories and devices.
pub const IN_PLACES: [PartKind; 5] = [
    PartKind::Memory,
    PartKind::Mutex,
    PartKind::Mailbox,
    PartKind::Timer,
    PartKind::Uart,
];

/// So many bytes from an address on.
pub fn bytes_from(from: u32, size: u32) -> Span
    ensures { result ≡ spec.bytes_from from size }
{
    Span {
        from: u64::from(from),
        end: u64::from(from) + u64::from(size),
    }
}

fn one(first: Span) -> Spans
    ensures { result ≡ spec.one first }
{
    Spans {
        first,
        second: Span { from: 0, end: 0 },
    }
}

impl Span {
    /// Whether a span holds a byte, or a line.
    #[inline(always)]
    pub fn holds(self, point: u64) -> bool
        ensures { result ≡ spec.holds self point }
    {
        self.from <= point && point < self.end
    }
}

/// Whether two spans share a byte.
fn share(a: Span, b: Span) -> bool
    ensures { result ≡ spec.share a b }
{
    a.from.max(b.from) < a.end.min(b.end)
}

fn meet(same: bool, a: Spans, b: Spans) -> bool
    ensures { result ≡ spec.meet same a b }
{
    if same {
        share(a.first, a.second)
    } else {
        share(a.first, b.first)
            || share(a.first, b.second)
            || share(a.second, b.first)
            || share(a.second, b.second)
    }
}

fn lines(at: u32, lines: u32) -> Span
    ensures { result ≡ spec.bytes_from at (32 * lines) }
{
    Span {
        from: u64::from(at),
        end: u64::from(at) + 32 * u64::from(lines),
    }
}

/// Where a part lies, if its kind lies anywhere.
pub fn spans_of(board: &Board, part: Part) -> Option<Spans>
    ensures { result ≡ spec.spans_of board.now part }
{
    let i = part.index;
    match part.kind {
        PartKind::Memory => {
            let m = row(board.memory.as_slice(), i)?;
            Some(one(bytes_from(m.base, m.size)))
        }
        PartKind::Mutex => Some(one(bytes_from(row(board.mutex.as_slice(), i)?.base, 8))),
        PartKind::Mailbox => {
            let m = row(board.mailbox.as_slice(), i)?;
            Some(Spans {
                first: bytes_from(m.send, 16),
                second: bytes_from(m.receive, 16),
            })
        }
        PartKind::Timer => Some(one(bytes_from(row(board.timer.as_slice(), i)?.base, 24))),
        PartKind::Uart => Some(one(bytes_from(row(board.uart.as_slice(), i)?.base, 8))),
        PartKind::Region => {
            let r = row(board.region.as_slice(), i)?;
            Some(one(bytes_from(r.base, r.size)))
        }
        PartKind::Dump => {
            let d = row(board.dump.as_slice(), i)?;
            Some(one(lines(d.at, d.lines)))
        }
        PartKind::Top | PartKind::Core | PartKind::Script => None,
    }
}

/// Two parts that share a byte, or two places of one part that do.
#[tactic(auto, unfolding(crate::specs::Rules::overlap))]
pub fn overlap(board: &Board, p: Part, q: Part) -> Option<BoardFault>
    ensures { result ≡ spec.overlap board.now p q }
{
    let here = spans_of(board, p)?;
    let there = spans_of(board, q)?;
    if meet(same_part(p, q), here, there) {
        Some(BoardFault::Overlap(p, q))
    } else {
        None
    }
}

/// Whether a span is inside one of the memories.
pub fn is_inside(memories: &[MemoryRow], a: Span) -> bool
    ensures { result ≡ spec.is_inside memories.now a }
{
    for m in memories {
        if u64::from(m.base) <= a.from && a.end <= u64::from(m.base) + u64::from(m.size) {
            return true;
        }
    }
    false
}

/// A region or a dump that is not inside one memory.
#[tactic(auto, unfolding(crate::specs::Rules::inside_fault))]
pub fn inside_fault(board: &Board, part: Part) -> Option<BoardFault>
    ensures { result ≡ spec.inside_fault board.now part }
{
    match part.kind {
        PartKind::Region | PartKind::Dump => {
            let here = spans_of(board, part)?;
            if is_inside(board.memory.as_slice(), here.first) {
                None
            } else {
                Some(BoardFault::Inside(part))
            }
        }
        _ => None,
    }
}
