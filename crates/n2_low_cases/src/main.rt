//! The program `n2_low_cases`: cases of words, instructions, orders and the outside, a row of standard
//! input each, are answered by the libraries. `n2_cases` says how rows are written.
#![tactic(auto)]

mod insns;
mod orders;
mod outside;
mod steps;
mod words;

use n2_cases::{Cases, NoAnswer, answer_rows, bytes_in, words_of};
use std::alloc::Global;
use std::io;
use std::rt::Files;

#[derive(Clone, Copy)]
struct LowCases<'a, R> {
    rt: &'a R,
}

impl<'a, R: Files> Cases for LowCases<'a, R> {
    fn answer(&self, alloc: Global, case: &str, out: &mut Vec<u8>) -> Result<(), NoAnswer> {
        let (kind, rest) = case.split_once(' ').ok_or(NoAnswer::NoCase)?;
        match kind {
            "number" | "word" | "null" => by_text(alloc, kind, rest, out),
            "order" | "list" | "turns" => orders::answer(alloc, kind, rest, out),
            "folder" | "sink" | "all" => outside::answer(alloc, kind, rest, out),
            "file" => outside::file(alloc, self.rt, rest, out),
            "put" => outside::put_to_file(alloc, self.rt, rest, out),
            "upto" => words::up_to(alloc, rest, out),
            _ => by_words(alloc, kind, rest, out),
        }
    }
}

fn by_text(alloc: Global, kind: &str, rest: &str, out: &mut Vec<u8>) -> Result<(), NoAnswer> {
    let text = bytes_in(alloc, rest)?;
    match kind {
        "number" => words::number(&text, out),
        "word" => words::word(&text, out),
        _ => outside::null(&text, out),
    }
}

fn by_words(alloc: Global, kind: &str, rest: &str, out: &mut Vec<u8>) -> Result<(), NoAnswer> {
    let words = words_of(alloc, rest)?;
    match kind {
        "sign" | "line" | "set" | "aligned" | "lane" | "merge" => words::answer(kind, &words, out),
        "insn" | "jmp" | "extend" => insns::answer(kind, &words, out),
        _ => steps::answer(kind, &words, out),
    }
}

fn main(rt: HostRuntime) -> io::Result<()> {
    answer_rows(&rt, &LowCases { rt: &rt })
}
