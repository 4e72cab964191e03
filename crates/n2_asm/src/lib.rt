//! The assembler of Nios II.
#![tactic(auto)]

mod faults;
mod naming;
mod objects;
mod output;
mod rows;
mod survey;

pub use faults::AsmFault;
pub use n2_statement::AsmKind;
pub use naming::put_fault;
pub use objects::{Object, assemble};
