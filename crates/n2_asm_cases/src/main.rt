//! The program `n2_asm_cases`: cases of sources and of words as text, a row of standard input each, are
//! answered by the libraries. `n2_cases` says how rows are written.
#![tactic(auto)]

mod listings;
mod sources;

use n2_cases::{Cases, NoAnswer, answer_rows};
use std::alloc::Global;
use std::io;

struct AsmCases;

impl Cases for AsmCases {
    fn answer(&self, alloc: Global, case: &str, out: &mut Vec<u8>) -> Result<(), NoAnswer> {
        let (kind, rest) = case.split_once(' ').ok_or(NoAnswer::NoCase)?;
        match kind {
            "asm" => sources::asm(alloc, rest, out),
            "image" => sources::image(alloc, rest, out),
            "label" => sources::label(alloc, rest, out),
            "many" => sources::many(alloc, rest, out),
            "dis" => listings::dis(alloc, rest, out),
            "list" => listings::list(alloc, rest, out),
            _ => Err(NoAnswer::NoCase),
        }
    }
}

fn main(rt: HostRuntime) -> io::Result<()> {
    answer_rows(&rt, &AsmCases)
}
