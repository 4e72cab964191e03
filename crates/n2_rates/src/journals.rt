//! The text of a journal: its entries, its bytes, and what is read from it.

ghost use Rattle.std.specs.Prelude.{◌≡◌, ◌+◌, ◌<◌, length};

use n2_bus::{Reply, Request};
use n2_journal::{Entry, Journal, read_text};
use std::alloc::Global;

/// How much is made of a journal.
#[derive(Clone, Copy)]
pub enum Made {
    /// Its entries.
    Entries,
    /// And its text.
    Text,
    /// And the journal that is read from its text.
    Read,
}

/// The entry of a number: a line that one of two cores fills its data cache with.
fn entry(i: u32) -> Entry {
    let word = i.wrapping_mul(0x9e37_79b9);
    Entry {
        local: u64::from(i % 100),
        actor: i % 2,
        request: Request::FillData(i % 0x1_0000),
        reply: Reply {
            words: [word, i, !word, !i, word, i, !word, !i],
            lines: 0,
            took: false,
            pointer: 0,
        },
    }
}

/// Adds the entries of the numbers below N.
fn add_entries(journal: &mut Journal, n: u32)
    requires { length journal.old.content.entries + n ≡ journal.old.limit }
{
    'entries: for i in 0..n {
        journal.add(entry(i));
    }
}

/// How many entries a journal of N has; how many bytes their text has; or how many entries are read
/// from it.
pub fn size_of(alloc: Global, made: Made, n: u32) -> Option<u32> {
    let Ok(mut journal) = Journal::with_room(alloc, n, 2) else {
        return None;
    };
    add_entries(&mut journal, n);
    if let Made::Entries = made {
        return u32::try_from(journal.entries().len()).ok();
    }
    let Ok(text) = journal.write_text(alloc) else {
        return None;
    };
    if let Made::Text = made {
        return u32::try_from(text.len()).ok();
    }
    match read_text(alloc, text.as_slice()) {
        Ok(read) => u32::try_from(read.entries().len()).ok(),
        Err(_) => None,
    }
}
