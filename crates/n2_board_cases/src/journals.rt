//! Cases of journals.

ghost use Rattle.n2_journal.specs.Journals.{HasOrder, IsWithinLimits};

use n2_cases::{NoAnswer, bytes_in, put_shown};
use n2_journal::{Journal, JournalFault, order, read_text};
use std::alloc::Global;

/// `journal TEXT`: what is wrong with the journal of a text; or how many entries it has, its tails, its
/// order as the turns of one actor at a time, and whether it is written as that text.
pub fn journal(alloc: Global, field: &str, out: &mut Vec<u8>) -> Result<(), NoAnswer> {
    let text = bytes_in(alloc, field.trim())?;
    match read_text(alloc, &text) {
        Ok(journal) => put_journal(alloc, &journal, &text, out),
        Err(JournalFault::NoMemory) => Err(NoAnswer::NoMemory),
        Err(fault) => put_shown(out, "", &fault),
    }
}

fn put_journal(
    alloc: Global,
    journal: &Journal,
    text: &[u8],
    out: &mut Vec<u8>,
) -> Result<(), NoAnswer>
    requires within { IsWithinLimits journal.now.content }
    requires order { HasOrder journal.now.content }
{
    put_shown(out, "entries ", &journal.entries().len())?;
    put_shown(out, " tails ", &journal.tails())?;
    put_shown(out, " order ", &order(alloc, journal)?.as_slice())?;
    let written = journal.write_text(alloc)?;
    put_shown(out, " same ", &(written.as_slice() == text))
}
