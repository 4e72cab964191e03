//! A core in both machines. Its front, which a machine with caches and one without have alike: its
//! registers, why it stopped, and its past events; what an instruction does to it, to memory and to
//! the book; and beside the front its private caches, with which it makes one turn at a time.
#![tactic(auto)]

pub mod laws;
