//! The past events of a core.

use n2_board::Guard;
use n2_insn::DataOp;

/// What a core did that the discipline remembers: a cached load or store of a line, a data cache
/// operation at an address, and that it came to own a guard, or owns it no more.
#[derive(Clone, Copy, Debug, PartialEq, Eq)]
pub enum Past {
    Touch { line: u32, store: bool },
    Clean { op: DataOp, address: u32 },
    Got(Guard),
    Gave(Guard),
}
