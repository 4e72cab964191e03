//! Accesses, as the discipline judges them.

use n2_board::Kind;
use n2_insn::DataOp;

/// An access of a core: a load or store through its data cache; a load or store past it, with the
/// value that a store writes; the fetch of an instruction; an operation on its data cache.
#[derive(Clone, Copy, Debug, PartialEq, Eq)]
pub enum Access {
    Cached {
        address: u32,
        store: bool,
    },
    Bypass {
        address: u32,
        store: bool,
        value: u32,
    },
    Fetch {
        address: u32,
    },
    Op {
        op: DataOp,
        address: u32,
    },
}

/// An access that is refused: by which rule, the address that the instruction gives, and the number
/// of the line that the refusal names.
#[derive(Clone, Copy, Debug, PartialEq, Eq)]
pub struct Broken {
    pub kind: Kind,
    pub address: u32,
    pub line: u32,
}

/// What is said of a load or store through the cache: it passes, with the place where its note looks
/// for the record of its line first; it is refused; or it strays. The place is a hint: a note at
/// another place searches.
#[derive(Clone, Copy, Debug, PartialEq, Eq)]
pub enum Judged {
    Passed(u32),
    Refused(Broken),
    Stray,
}
