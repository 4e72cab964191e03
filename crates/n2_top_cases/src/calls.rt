//! Calls of the top calls.

ghost use Rattle.std.specs.Prelude.{◌<◌};

use crate::files::{Files, string};
use n2_cases::{NoAnswer, number_in, put, put_shown};
use n2_outside::{MemSink, OpenGate};
use n2_text::put_text;
use n2_top::{run_top, tool_top};
use n2_word::NoMemory;
use std::alloc::Global;
use std::sync::Wait;
use std::thread::Threads;

/// How many bytes a sink has room for.
const ROOM: usize = 1 << 23;

fn push<T: Drop>(list: &mut Vec<T>, item: T) -> Result<(), NoMemory> {
    Ok(list.push(item)?)
}

/// Which fetches and puts fail, counted from 1, and how many bytes a put takes at most.
#[derive(Drop)]
pub struct Faults {
    fetches: Vec<u64>,
    outs: Vec<u64>,
    journals: Vec<u64>,
    most: usize,
}

impl Faults {
    /// None fail.
    pub fn none(alloc: Global) -> Faults {
        Faults {
            fetches: Vec::new(alloc),
            outs: Vec::new(alloc),
            journals: Vec::new(alloc),
            most: ROOM,
        }
    }

    /// `fetch:N`, `out:N`, `journal:N` or `most:N`.
    fn add(&mut self, word: &str) -> Result<(), NoAnswer> {
        let (name, number) = word.split_once(':').ok_or(NoAnswer::NoCase)?;
        let number = number_in(1000, number)?;
        match name {
            "fetch" => push(&mut self.fetches, number)?,
            "out" => push(&mut self.outs, number)?,
            "journal" => push(&mut self.journals, number)?,
            "most" => self.most = number as usize,
            _ => return Err(NoAnswer::NoCase),
        }
        Ok(())
    }
}

/// Which of the two top calls is called.
#[derive(Clone, Copy)]
pub enum Top {
    Tool,
    Threads,
}

/// What a call left: its status, and what was put to both sinks.
#[derive(Drop)]
pub struct Called {
    pub status: u8,
    pub out: Vec<u8>,
    pub journal: Vec<u8>,
}

/// Calls a top call with words.
pub fn call<R: Threads + Wait + Sync>(
    rt: &R,
    alloc: Global,
    top: Top,
    files: &Files,
    faults: Faults,
    words: &[String],
) -> Result<Called, NoMemory> {
    let Faults {
        fetches,
        outs,
        journals,
        most,
    } = faults;
    let most = most.max(1);
    let mut folder = files.folder(alloc, fetches)?;
    let mut out = MemSink::new(alloc, outs, most, ROOM)?;
    let mut journal = MemSink::new(alloc, journals, most, ROOM)?;
    let status = match top {
        Top::Tool => tool_top(alloc, words, &mut folder, &mut out, &mut journal),
        Top::Threads => run_top(
            rt,
            alloc,
            words,
            &mut folder,
            &mut out,
            &mut journal,
            &OpenGate::new(),
        ),
    };
    Ok(Called {
        status,
        out: out.written().to_vec(alloc)?,
        journal: journal.written().to_vec(alloc)?,
    })
}

/// Appends a status and a text with its name.
fn put_part(out: &mut Vec<u8>, name: &str, text: &[u8]) -> Result<(), NoAnswer> {
    put(out, name)?;
    put(out, ":\n")?;
    put_text(out, text)?;
    put(out, "\n")
}

/// `WORD ..`, with faults among them.
pub fn answer_call<R: Threads + Wait + Sync>(
    rt: &R,
    alloc: Global,
    top: Top,
    files: &Files,
    words: &[&str],
    out: &mut Vec<u8>,
) -> Result<(), NoAnswer> {
    let mut faults = Faults::none(alloc);
    let mut own = Vec::new(alloc);
    for word in words {
        match word.strip_prefix('@') {
            Some(fault) => faults.add(fault)?,
            None => push(&mut own, string(alloc, word)?)?,
        }
    }
    let called = call(rt, alloc, top, files, faults, &own)?;
    put_shown(out, "status ", &called.status)?;
    put(out, "\n")?;
    put_part(out, "out", &called.out)?;
    put_part(out, "journal", &called.journal)
}
