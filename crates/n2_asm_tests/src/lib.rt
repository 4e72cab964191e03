//! Tests of the assembler, the disassembler and the HAL routines, in one crate: a crate with tests is
//! proved twice. Each module has the tests of the library that it names.
#![tactic(auto)]

#[cfg(test)]
mod assembler;
#[cfg(test)]
mod disassembler;
#[cfg(test)]
mod routines;
