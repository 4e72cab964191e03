//! Why a core stops, and what the actors of a system do.

use crate::board::DeviceEvent;

/// The rules of the discipline that refuse an access.
#[derive(Clone, Copy, Debug, PartialEq, Eq)]
pub enum Kind {
    Separate,
    Lock,
    Invalidate,
    Flush,
}

/// An access that is refused: by which rule, the program counter and the word of its instruction (0
/// for a fetch), the address that the instruction gives (the program counter for a fetch), and the
/// number of the line that the refusal names.
#[derive(Clone, Copy, Debug, PartialEq, Eq)]
pub struct Refusal {
    pub kind: Kind,
    pub pc: u32,
    pub insn: u32,
    pub address: u32,
    pub line: u32,
}

/// Why a core stopped: by `break`; by a refused access; by an access that names nothing, at that
/// address; after its last turn; at a transfer for which the journal has no room.
#[derive(Clone, Copy, Debug, PartialEq, Eq)]
pub enum Stop {
    Broke,
    Refused(Refusal),
    Stray(u32),
    Spent,
    LogFull,
}

/// What is done on one flat memory: a core takes an interrupt, runs an instruction or stops; a core
/// latches its interrupt lines; the devices have an event.
#[derive(Clone, Copy, Debug, PartialEq, Eq)]
pub enum Act {
    Retire(u32),
    Sample(u32),
    Device(DeviceEvent),
}
