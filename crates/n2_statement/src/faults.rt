//! Why a row has no meaning.

/// Why a row is faulty: a byte that is not ASCII, no such statement, operands that are not those of
/// the statement, a name that is named twice, a name that is named nowhere, a number that does not
/// fit its field, or bytes or a label that can have no place.
#[derive(Clone, Copy, Debug, PartialEq, Eq)]
pub enum AsmKind {
    NotAscii,
    Unknown,
    Operands,
    Label,
    NoLabel,
    Range,
    Place,
}
