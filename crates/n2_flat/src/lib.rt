//! The flat machine: one memory without caches, the devices, and cores whose accesses are judged.
#![tactic(auto)]

mod board;
mod bypass;
mod bytes;
mod common;
mod cores;
mod events;
mod machine;
mod opening;
mod retire;
mod tasks;

pub use board::plain_board;
pub use machine::Flat;
pub use n2_board::{Kind, Refusal, Stop};
pub use n2_watch::Past;
