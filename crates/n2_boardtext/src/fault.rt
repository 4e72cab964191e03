//! What is wrong with the text of a board.

ghost use Rattle.std.specs.Prelude.{◌≡◌};
ghost use Rattle.std.specs.Result.{result_err};
ghost use Rattle.n2_text.specs.Firsts as firsts;
ghost use Rattle.n2_boardtext.specs.declared.fault.TextFault.TheVariants as faults;

use n2_parts::{BoardFault, Key, Part};
use n2_word::NoMemory;
use std::alloc::AllocError;

/// The first thing that is wrong with the text of a board. Parts are named by their array and their
/// number in it; the board itself, with its own keys, is part 0 of the array `Top`.
#[derive(Clone, Copy, Debug, PartialEq, Eq)]
pub enum TextFault {
    /// The text is no TOML document.
    NotToml,
    /// A key that such a part does not have.
    Unknown(Part),
    /// A key that such a part must have.
    Missing(Part, Key),
    /// A value of another kind than the key's.
    Kind(Part, Key),
    /// A number that is negative, or too great for the key's type.
    Range(Part, Key),
    /// A name that no part has, or a word that is none of the key's.
    NoPart(Part, Key),
    /// The first rule that the board breaks; and before all else `Count` of an array whose parts a
    /// word does not number.
    Board(BoardFault),
    /// No memory was left.
    NoMemory,
}

impl From<NoMemory> for TextFault {
    ghost from_gives = { λ _ fault. fault ≡ faults.NoMemory };

    fn from(_: NoMemory) -> TextFault {
        TextFault::NoMemory
    }
}

impl From<AllocError> for TextFault {
    ghost from_gives = { λ _ fault. fault ≡ faults.NoMemory };

    fn from(_: AllocError) -> TextFault {
        TextFault::NoMemory
    }
}

impl From<BoardFault> for TextFault {
    ghost from_gives = { λ rule fault. fault ≡ faults.Board rule };

    fn from(rule: BoardFault) -> TextFault {
        TextFault::Board(rule)
    }
}

/// A fault, unless a condition holds.
pub fn unless(holds: bool, fault: TextFault) -> Result<(), TextFault>
    ensures { result_err result ≡ firsts.unless holds fault }
{
    if holds { Ok(()) } else { Err(fault) }
}
