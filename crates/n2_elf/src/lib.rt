//! Executables as the Nios II toolchain links them (ELF32, little-endian) and raw images, read
//! and written.
#![tactic(auto)]

mod image;
mod naming;
mod reading;
mod writing;

pub use image::{ElfFault, Image, Segment};
pub use naming::put_fault;
