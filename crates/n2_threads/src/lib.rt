//! The caching machine, where threads draw the order of its turns.
#![tactic(auto)]

mod rounds;
mod threads;

pub use threads::run_threads;
