//! The disassembler of Nios II: words as statements of the assembler's, and listings of images.
#![tactic(auto)]

pub mod laws;
mod lines;
mod operands;

pub use lines::{line_text, put_line, put_listing};
pub use operands::{Operand, Operands};
