//! The program `n2_top_cases`: calls of the tool over files and sinks in memory.
//!
//! `file NAME TEXT` and `asm NAME TEXT` make files, the second the image of a source; a later file of a name
//! takes the place of an earlier one. `run BOARD ORDER SHOW ..` makes `step` of the board in a file by an
//! order, and then `replay` and `flat` of its journal. It is answered by itself and what it shows, or by
//! the row that `step` writes. `tool WORD ..` is a call of the tool: it is answered by itself, its status, what
//! was put to `out`, and what was put to the journal; `mp WORD ..` is the same of the call that runs a board by threads. Empty rows and rows that begin with `#` are written as
//! they are. `n2_cases` says how a TEXT is written.
//!
//! A SHOW is `report`, `flat` or `journal`, for the report, the flat report or the journal; with `:PREFIX`,
//! for its rows that begin with these bytes, `_` for a blank. Each run tells at its end whether `replay` writes the
//! report of `step`, and whether both reports show the same cores, UARTs and verdict.
//!
//! Among the words of `tool` and `mp`, `@fetch:N`, `@out:N` and `@journal:N` make the N-th fetch or put fail, counted
//! from 1, and `@most:N` has both sinks take at most N bytes at a put; they are no words of the call.
#![tactic(auto)]

mod calls;
mod files;
mod runs;
mod shows;

use calls::Top;
use files::Files;
use n2_cases::{NoAnswer, put, words_of};
use n2_outside::{StdSink, put_all};
use std::alloc::{AllocError, Global};
use std::io::{self, BufRead, BufReader, ErrorKind, Input, Print};
use std::sync::Wait;
use std::thread::Threads;

fn answer<R: Threads + Wait + Sync>(
    rt: &R,
    alloc: Global,
    files: &mut Files,
    row: &str,
    out: &mut Vec<u8>,
) -> Result<(), NoAnswer> {
    let (kind, rest) = row.split_once(' ').ok_or(NoAnswer::NoCase)?;
    match kind {
        "file" => files.put_text(alloc, rest),
        "asm" => files.put_image(alloc, rest, out),
        "run" => {
            put(out, row)?;
            put(out, "\n")?;
            runs::run(rt, alloc, files, &words_of(alloc, rest)?, out)
        }
        "tool" => {
            put(out, row)?;
            put(out, "\n")?;
            calls::answer_call(rt, alloc, Top::Tool, files, &words_of(alloc, rest)?, out)
        }
        "mp" => {
            put(out, row)?;
            put(out, "\n")?;
            calls::answer_call(rt, alloc, Top::Threads, files, &words_of(alloc, rest)?, out)
        }
        _ => Err(NoAnswer::NoCase),
    }
}

/// The rows that answer a row.
fn answered<R: Threads + Wait + Sync>(
    rt: &R,
    alloc: Global,
    files: &mut Files,
    row: &str,
) -> Result<Vec<u8>, AllocError> {
    let mut out = Vec::new(alloc);
    if row.is_empty() || row.starts_with('#') {
        out.extend_from_slice(row.as_bytes())?;
        out.push(b'\n')?;
        return Ok(out);
    }
    match answer(rt, alloc, files, row, &mut out) {
        Ok(()) => Ok(out),
        Err(NoAnswer::NoCase) => Ok(b"no case\n".to_vec(alloc)?),
        Err(NoAnswer::NoMemory) => Err(AllocError),
    }
}

fn answer_rows<R: Input + Print + AllocGlobal + Threads + Wait + Sync>(rt: &R) -> io::Result<()> {
    let alloc = rt.alloc();
    let mut out = StdSink::new(rt);
    let mut files = Files::new(alloc);
    for row in BufReader::new(alloc, rt.reader())?.lines(alloc) {
        let answer = answered(rt, alloc, &mut files, row?.as_str())?;
        if put_all(&mut out, &answer).is_err() {
            return Err(io::Error::from(ErrorKind::Other));
        }
    }
    Ok(())
}

fn main(rt: HostRuntime) -> io::Result<()> {
    answer_rows(&rt)
}
