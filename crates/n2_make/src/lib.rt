//! Workloads: from a number, a board of four cores whose programs enter critical sections under four
//! mutexes.
#![tactic(auto)]

mod board;
mod programs;
mod work;

pub use work::{Work, workload};
