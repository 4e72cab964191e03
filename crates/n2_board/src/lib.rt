//! What stands where on a board with its images, and who may touch it.
#![tactic(auto)]

mod access;
mod classes;
mod finder;
mod guards;
pub mod laws;
mod layout;
mod overlaps;
mod placement;
mod places;
mod segments;
mod table;

pub use access::{Direction, Route, Target, Violation};
pub use classes::Class;
pub use guards::{Guard, Holder};
pub use layout::Layout;
pub use n2_parts::{
    ARRAYS, Act, Board, BoardFault, CoreRow, DeviceEvent, DumpRow, Key, Kind, MailboxRow,
    MemoryRow, MutexRow, Part, PartKind, Refusal, RegionClass, RegionRow, ScriptRow, Stop,
    TimerRow, UartRow, valid,
};
pub use placement::OpenFault;
pub use places::{Place, Places};
