//! Statements of an assembler source: the statement of a row, and what it puts at an address.
#![tactic(auto)]

mod faults;
mod names;
mod statements;
mod values;

pub use faults::AsmKind;
pub use names::{define, find};
pub use statements::{Statement, label_at, read_row};
pub use values::{Content, Field, content_of, padding};
