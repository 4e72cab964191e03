//! Orders of turns: which actor goes next.
#![tactic(auto)]

mod chooser;
pub mod laws;
mod lists;
mod words;

pub use chooser::Chooser;
pub use lists::{ListFault, read_list};
pub use words::Order;
