//! Files that list actors.

ghost use Rattle.std.specs.Prelude.{◌≡◌, ℕ, ◌<◌, ◌≤◌, [], ◌∷◌, length, All, Ok, Err, IfOk, IfSome, IfNone};
ghost use Rattle.n2_order.specs.Lists.{pieces_of, actor_of as actor_at, list_of};

use n2_text::numeral_up_to;
use std::alloc::Global;

/// Why a list of actors cannot be read: a row, counted from 1, that is no actor's, or no memory.
#[derive(Clone, Copy, Debug, PartialEq, Eq)]
pub enum ListFault {
    Row(u64),
    NoMemory,
}

/// The actors of a file, one for each row: a core's number, or `d` for the device actor, whose number
/// is `cores`. A row ends with a line feed, and a number is decimal digits without a sign or a
/// leading zero. `Row` names the first row that is none of these.
pub fn read_list(alloc: Global, bytes: &[u8], cores: u32) -> Result<Vec<u32>, ListFault>
    ensures ok { IfOk result (λ list. list_of cores bytes.now ≡ Ok list.items) }
    ensures row { (row : ℕ) → result ≡ Err (ListFault.Row row) → list_of cores bytes.now ≡ Err row }
    ensures actors { IfOk result (λ list. All (λ actor. actor ≤ cores) list.items) }
{
    let mut list = Vec::new(alloc);
    let mut rest = bytes;
    let mut row = 1u64;
    while let Some((piece, behind)) = first_row(rest) {
        let Some(actor) = actor_of(piece, cores) else {
            return Err(ListFault::Row(row));
        };
        let Ok(()) = list.push(actor) else {
            return Err(ListFault::NoMemory);
        };
        rest = behind;
        row += 1;
    }
    if rest.is_empty() {
        Ok(list)
    } else {
        Err(ListFault::Row(row))
    }
}

/// The text in front of the first line feed, and what stands behind it.
fn first_row(bytes: &[u8]) -> Option<(&[u8], &[u8])>
    ensures none { IfNone result (pieces_of bytes.now ≡ bytes.now ∷ []) }
    ensures some { IfSome result (λ x. pieces_of bytes.now ≡ x.0.now ∷ pieces_of x.1.now) }
    ensures shorter { IfSome result (λ x. length x.1.now < length bytes.now) }
{
    for (at, c) in bytes.iter().enumerate() {
        if *c == b'\n' {
            return Some((&bytes[..at], &bytes[at + 1..]));
        }
    }
    None
}

/// The actor of a row without its line feed.
fn actor_of(piece: &[u8], cores: u32) -> Option<u32>
    ensures value { result ≡ actor_at cores piece.now }
    ensures small { IfSome result (λ actor. actor ≤ cores) }
{
    if let [b'd'] = piece {
        return Some(cores);
    }
    let n = numeral_up_to(u64::from(cores), piece)?;
    if n < u64::from(cores) {
        Some(n as u32)
    } else {
        None
    }
}
