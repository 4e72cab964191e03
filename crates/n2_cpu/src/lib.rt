//! A core with its private caches, one turn at a time.
#![tactic(auto)]

mod aim;
mod cpu;
mod judging;
pub mod laws;
mod opening;
mod state;
mod tasks;
mod turns;
mod wants;

pub use cpu::Core;
pub use turns::{Plan, Step};
