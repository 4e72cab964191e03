//! The caching machine over an order of turns.
#![tactic(auto)]

mod entries;
mod machine;
mod replay;
mod script;
mod turns;

pub use machine::{Machine, Ran};
pub use replay::Wrong;
pub use script::Script;
pub use turns::Turned;
