//! The journal of a run: its bus transfers in order, and for each core its turns after the last one;
//! written as text, and read.
#![tactic(auto)]

mod cursor;
mod entry;
mod journal;
pub mod laws;
mod reading;
mod rows;
mod writing;

pub use entry::Entry;
pub use journal::{Journal, JournalFault, order};
pub use reading::read_text;
