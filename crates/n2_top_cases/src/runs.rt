//! Runs of a board by an order, and by the journal of that run.

use crate::calls::{Called, Faults, Top, call};
use crate::files::{Files, string};
use crate::shows::{Texts, put_shows};
use n2_cases::{NoAnswer, put};
use n2_text::put_text;
use n2_word::NoMemory;
use std::alloc::Global;
use std::sync::Wait;
use std::thread::Threads;

/// The file that a run's journal is put into.
const JOURNAL: &str = "journal.txt";

/// A call of a command over a board and one word more, in which nothing fails.
fn command<R: Threads + Wait + Sync>(
    rt: &R,
    alloc: Global,
    files: &Files,
    name: &str,
    board: &str,
    last: &str,
) -> Result<Called, NoMemory> {
    let mut words = Vec::new(alloc);
    words.push(string(alloc, name)?)?;
    words.push(string(alloc, board)?)?;
    words.push(string(alloc, last)?)?;
    call(rt, alloc, Top::Tool, files, Faults::none(alloc), &words)
}

/// `BOARD ORDER SHOW ..`
pub fn run<R: Threads + Wait + Sync>(
    rt: &R,
    alloc: Global,
    files: &mut Files,
    words: &[&str],
    out: &mut Vec<u8>,
) -> Result<(), NoAnswer> {
    let [board, order, shows @ ..] = words else {
        return Err(NoAnswer::NoCase);
    };
    let stepped = command(rt, alloc, files, "step", board, order)?;
    if stepped.status > 2 {
        return Ok(put_text(out, &stepped.out)?);
    }
    files.put(alloc, JOURNAL, stepped.journal.as_slice().to_vec(alloc)?)?;
    let replayed = command(rt, alloc, files, "replay", board, JOURNAL)?;
    let flat = command(rt, alloc, files, "flat", board, JOURNAL)?;
    if replayed.out != stepped.out || replayed.status != stepped.status {
        put(out, "the replay differs\n")?;
    }
    let texts = Texts {
        report: stepped.out,
        flat: flat.out,
        journal: stepped.journal,
    };
    put_shows(alloc, out, &texts, shows)
}
