//! Why a source has no image.

ghost use Rattle.std.specs.Prelude.{◌≡◌};

use n2_statement::AsmKind;
use n2_word::NoMemory;

/// Why a source has no image: its first faulty row, counted from 1, with the first kind of the row,
/// in the order of [`AsmKind`]; or want of memory. A source without a faulty row that has no
/// executable segment is `Place` at row 0.
#[derive(Clone, Copy, Debug, PartialEq, Eq)]
pub enum AsmFault {
    Row { row: u64, kind: AsmKind },
    NoMemory,
}

impl From<NoMemory> for AsmFault {
    ghost use Rattle.n2_asm.specs.declared.faults.AsmFault.TheVariants as faults;

    ghost from_gives = { λ _ fault. fault ≡ faults.NoMemory };

    fn from(_refused: NoMemory) -> AsmFault {
        AsmFault::NoMemory
    }
}
