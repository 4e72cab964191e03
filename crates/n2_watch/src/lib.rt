//! The discipline of shared memory: what a core remembers, what it owns, and what it may do.
#![tactic(auto)]

mod access;
pub mod laws;
mod notes;
mod opening;
mod past;
mod records;
mod runs;
mod watch;

pub use access::{Access, Broken, Judged};
pub use notes::Done;
pub use past::Past;
pub use watch::Watch;
