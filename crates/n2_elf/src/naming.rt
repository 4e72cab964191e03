//! Faults as text.

ghost use Rattle.std.specs.Prelude.{◌≡◌, ◌++◌, OnOk, OnErr};
ghost use Rattle.n2_elf.specs.Names.{fault_text};

use crate::image::ElfFault;
use n2_text::{put_numbered, put_text};
use n2_word::NoMemory;

/// Appends a fault in lower-case letters, with its number in decimal where it has one, as
/// `wrongmachine 243`, `cut 52` or `nosegment`. After want of memory `out` is as it was.
#[tactic(auto, unfolding(crate::specs::Names::fault_text))]
pub fn put_fault(out: &mut Vec<u8>, fault: &ElfFault) -> Result<(), NoMemory>
    ensures ok { OnOk result (out.new.items ≡ out.old.items ++ fault_text fault.now) }
    ensures err { OnErr result (out.new.items ≡ out.old.items) }
{
    match fault {
        ElfFault::NotElf => put_text(out, b"notelf"),
        ElfFault::Cut(place) => put_numbered(out, b"cut ", *place),
        ElfFault::WrongClass => put_text(out, b"wrongclass"),
        ElfFault::WrongMachine(n) => put_numbered(out, b"wrongmachine ", u64::from(*n)),
        ElfFault::WrongType(n) => put_numbered(out, b"wrongtype ", u64::from(*n)),
        ElfFault::Flags(n) => put_numbered(out, b"flags ", u64::from(*n)),
        ElfFault::EntrySize(n) => put_numbered(out, b"entrysize ", u64::from(*n)),
        ElfFault::Sizes(i) => put_numbered(out, b"sizes ", u64::from(*i)),
        ElfFault::NoSegment => put_text(out, b"nosegment"),
        ElfFault::NoMemory => put_text(out, b"nomemory"),
    }
}
