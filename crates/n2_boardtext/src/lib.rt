//! The text of a board, which is TOML.
#![tactic(auto)]

mod boards;
mod document;
mod fault;
mod faults;
mod keys;
pub mod laws;
mod reading;
mod rows;
mod values;
mod words;

pub use fault::TextFault;
pub use reading::read;
pub use rows::put_fault;
pub use words::{key_name, kind_name};
