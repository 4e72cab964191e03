//! Boards as lists of parts: which are valid, copies of them, and the spans of bytes of their parts.
#![tactic(auto)]

mod board;
mod copying;
pub mod laws;
mod lines;
mod numbers;
mod parts;
mod rules;
mod spans;
mod stops;
mod validity;

pub use board::{
    Board, BoardFault, CoreRow, DeviceEvent, DumpRow, Key, MailboxRow, MemoryRow, MutexRow, Part,
    PartKind, RegionClass, RegionRow, ScriptRow, TimerRow, UartRow,
};
pub use copying::copy_memories;
pub use lines::{line_count, line_place};
pub use parts::{ARRAYS, DEVICES, count_of, row};
pub use spans::{IN_PLACES, Span, Spans, bytes_from, is_inside, spans_of};
pub use stops::{Act, Kind, Refusal, Stop};
pub use validity::valid;
