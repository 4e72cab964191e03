//! The parts of a board in their order, and the first fault among them.

ghost use Rattle.std.specs.Prelude.{◌≡◌, ◌<◌, ◌^◌, Option, option_map, slice_get};
ghost use Rattle.n2_parts.specs.declared.board.Part.{Part as PartValue};
ghost use Rattle.n2_parts.specs.declared.board.BoardFault.{BoardFault as FaultValue};
ghost use Rattle.n2_parts.specs.Parts as spec;
ghost use Rattle.n2_parts.specs.Valid.{IsSmall};

use crate::board::{Board, BoardFault, Part, PartKind};

/// The arrays of parts, in order.
pub const ARRAYS: [PartKind; 9] = [
    PartKind::Memory,
    PartKind::Core,
    PartKind::Mutex,
    PartKind::Mailbox,
    PartKind::Timer,
    PartKind::Uart,
    PartKind::Region,
    PartKind::Dump,
    PartKind::Script,
];

/// The arrays of devices, in order.
pub const DEVICES: [PartKind; 4] = [
    PartKind::Mutex,
    PartKind::Mailbox,
    PartKind::Timer,
    PartKind::Uart,
];

/// What finds a fault at a part of a board.
pub trait Rule {
    /// What it finds.
    ghost finds: { Self → PartValue → Option FaultValue };

    /// The fault of a part, if it has one.
    fn look(&self, part: Part) -> Option<BoardFault>
        ensures { result ≡ finds self.now part };
}

/// The row of a number, if there is one.
pub fn row<T>(rows: &[T], i: u32) -> Option<&T>
    ensures { option_map (λ r. r.now) result ≡ slice_get rows.now i }
{
    rows.get(i as usize)
}

/// How many parts an array has.
pub fn count_of(board: &Board, kind: PartKind) -> usize
    ensures { result ≡ spec.count_of board.now kind }
{
    match kind {
        PartKind::Top => 1,
        PartKind::Memory => board.memory.len(),
        PartKind::Core => board.core.len(),
        PartKind::Mutex => board.mutex.len(),
        PartKind::Mailbox => board.mailbox.len(),
        PartKind::Timer => board.timer.len(),
        PartKind::Uart => board.uart.len(),
        PartKind::Region => board.region.len(),
        PartKind::Dump => board.dump.len(),
        PartKind::Script => board.script.len(),
    }
}

/// Whether two parts are one.
pub fn same_part(p: Part, q: Part) -> bool
    ensures { result ≡ spec.same_part p q }
{
    rank(p.kind) == rank(q.kind) && p.index == q.index
}

fn rank(kind: PartKind) -> u8
    ensures { result ≡ spec.rank kind }
{
    match kind {
        PartKind::Top => 0,
        PartKind::Memory => 1,
        PartKind::Core => 2,
        PartKind::Mutex => 3,
        PartKind::Mailbox => 4,
        PartKind::Timer => 5,
        PartKind::Uart => 6,
        PartKind::Region => 7,
        PartKind::Dump => 8,
        PartKind::Script => 9,
    }
}

/// The first fault of the parts of an array.
fn first_of_kind<R: Rule>(count: u32, kind: PartKind, rule: &R) -> Option<BoardFault>
    ensures { result ≡ spec.first_from (λ i. R.finds rule.now (spec.part_of kind i)) 0 count }
{
    for index in 0..count {
        match rule.look(Part { kind, index }) {
            Some(fault) => return Some(fault),
            None => (),
        }
    }
    None
}

/// The first fault of the parts of some arrays, in order.
pub fn first_part<R: Rule>(board: &Board, kinds: &[PartKind], rule: &R) -> Option<BoardFault>
    requires { IsSmall board.now }
    ensures { result ≡ spec.first_part board.now kinds.now (λ part. R.finds rule.now part) }
{
    for kind in kinds {
        match first_of_kind(count_of(board, *kind) as u32, *kind, rule) {
            Some(fault) => return Some(fault),
            None => (),
        }
    }
    None
}
