//! The caching machine and the flat machine over an order of turns, as definitions, and the laws on
//! their runs.
#![tactic(auto)]

pub mod laws;
