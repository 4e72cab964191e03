//! Faults as text.

ghost use Rattle.std.specs.Prelude.{◌≡◌, ◌++◌, OnOk};
ghost use Rattle.n2_asm.specs.FaultTexts as spec;

use n2_statement::AsmKind;
use n2_text::{put_number, put_text};
use n2_word::NoMemory;

/// A kind of fault in lower-case letters.
fn kind_text(kind: AsmKind) -> &'static str
    ensures { result.now ≡ spec.kind_text kind }
{
    match kind {
        AsmKind::NotAscii => "notascii",
        AsmKind::Unknown => "unknown",
        AsmKind::Operands => "operands",
        AsmKind::Label => "label",
        AsmKind::NoLabel => "nolabel",
        AsmKind::Range => "range",
        AsmKind::Place => "place",
    }
}

/// Appends a faulty row with the kind of its fault in lower-case letters, as `row 2 range`.
pub fn put_fault(out: &mut Vec<u8>, row: u64, kind: AsmKind) -> Result<(), NoMemory>
    ensures { OnOk result (out.new.items ≡ out.old.items ++ spec.fault_text row kind) }
{
    put_text(out, b"row ")?;
    put_number(out, row)?;
    put_text(out, b" ")?;
    put_text(out, kind_text(kind).as_bytes())
}
