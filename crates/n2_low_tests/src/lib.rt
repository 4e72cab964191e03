//! Tests of the libraries from words to the journal, in one crate: a crate with tests is proved twice.
//! Each module has the tests of the library that it names.
#![tactic(auto)]

#[cfg(test)]
mod dcache;
#[cfg(test)]
mod icache;
#[cfg(test)]
mod journal;
#[cfg(test)]
mod juart;
#[cfg(test)]
mod mailbox;
#[cfg(test)]
mod mutex;
#[cfg(test)]
mod texts;
#[cfg(test)]
mod timer;
#[cfg(test)]
mod words;
