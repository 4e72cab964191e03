//! Runs of the caching machine: by an order of turns that is chosen as the run goes on, and by the order
//! that a journal tells, with the flat machine beside it; and single turns with the flat machine beside it.
#![tactic(auto)]

mod beside;
mod chosen;
pub mod laws;

pub use beside::{run_beside, turn_beside};
pub use chosen::{most_turns, run_by, who_is_over};
