//! Journals: the transfers of a run, and for each core its turns after its last transfer.

ghost use Rattle.std.specs.Prelude.{◌≡◌, ◌+◌, ◌^◌, ◌<◌, [], ◌∷◌, ◌++◌, length, map, vec_len, All, IfOk, OnOk};
ghost use Rattle.n2_journal.specs.Journals.{empty_of, with_entry, with_tail, order_of, tail_turns, HasOrder};

use crate::entry::Entry;
use n2_word::NoMemory;
use std::alloc::Global;
use std::marker::Model;

/// The transfers of a run in their order, and for each core its turns after its last transfer, its
/// tail. Memory for as many entries as the limit is taken when a journal is made.
#[derive(Debug, Drop)]
pub struct Journal {
    entries: Vec<Entry>,
    tails: Vec<u64>,
    limit: u32,
}

impl Model for Journal {
    ghost use Rattle.std.specs.Prelude.{◌≤◌, ◌<◌, ◌^◌, vec_len, vec_capacity};
    ghost use Rattle.n2_journal.specs.Journals.{Limited};

    ghost Value = { Limited };

    ghost view = { λ j. record { content = record { entries = j.entries.items; tails = j.tails.items }; limit = j.limit } };

    ghost invariant = { λ j. (j.limit ≤ vec_capacity j.entries) × (vec_len j.tails < 2 ^ 32) };
}

/// Why a text is no journal: its first row, counted from 1, that is outside of the grammar; the text
/// ends before its row `end`; or no memory.
#[derive(Clone, Copy, Debug, PartialEq, Eq)]
pub enum JournalFault {
    NotJournal(u64),
    Cut,
    NoMemory,
}

impl From<NoMemory> for JournalFault {
    ghost use Rattle.n2_journal.specs.declared.journal.JournalFault.TheVariants as faults;

    ghost from_gives = { λ _ fault. fault ≡ faults.NoMemory };

    fn from(_refused: NoMemory) -> JournalFault {
        JournalFault::NoMemory
    }
}

impl Journal {
    /// No entries and a tail of 0 for each core, with memory for so many entries.
    pub fn with_room(alloc: Global, limit: u32, cores: u32) -> Result<Journal, NoMemory>
        ensures { IfOk result (λ j. j ≡ record { content = empty_of cores; limit = limit }) }
    {
        let entries = Vec::with_capacity(alloc, limit as usize)?;
        let tails = vec![in alloc; 0u64; cores as usize]?;
        Ok(Journal {
            entries,
            tails,
            limit,
        })
    }

    /// A journal that was read: it takes no further entries.
    pub(crate) fn of_text(entries: Vec<Entry>, tails: Vec<u64>) -> Journal
        requires { vec_len tails < 2 ^ 32 }
        ensures content { result.content ≡ record { entries = entries.items; tails = tails.items } }
        ensures limit { result.limit ≡ 0 }
    {
        Journal {
            entries,
            tails,
            limit: 0,
        }
    }

    /// Adds an entry at the end.
    pub fn add(&mut self, entry: Entry)
        requires { length self.old.content.entries < self.old.limit }
        ensures { self.new ≡ record { content = with_entry self.old.content entry; limit = self.old.limit } }
    {
        match self.entries.push(entry) {
            Ok(()) => (),
            Err(_) => unreachable!(),
        }
    }

    /// Sets the tail of a core.
    pub fn set_tail(&mut self, core: u32, tail: u64)
        requires { core < length self.old.content.tails }
        ensures { self.new ≡ record { content = with_tail self.old.content core tail; limit = self.old.limit } }
    {
        self.tails[core as usize] = tail;
    }

    /// The entries in their order.
    pub fn entries(&self) -> &[Entry]
        ensures { result.now ≡ self.now.content.entries }
    {
        self.entries.as_slice()
    }

    /// The tails of the cores in their order.
    pub fn tails(&self) -> &[u64]
        ensures { result.now ≡ self.now.content.tails }
    {
        self.tails.as_slice()
    }

    /// How many entries there can be: as many as memory was taken for, and none in a journal that was
    /// read.
    pub fn limit(&self) -> u32
        ensures { result ≡ self.now.limit }
    {
        self.limit
    }
}

/// The turns that a journal tells, so many of one actor at a time: those up to and with each
/// transfer, and then each core's tail.
pub fn order(alloc: Global, journal: &Journal) -> Result<Vec<(u32, u64)>, NoMemory>
    requires { HasOrder journal.now.content }
    ensures { IfOk result (λ turns. turns.items ≡ order_of journal.now.content) }
{
    let mut turns = Vec::new(alloc);
    put_entry_turns(&mut turns, journal.entries.as_slice())?;
    put_tail_turns(&mut turns, journal.tails.as_slice())?;
    Ok(turns)
}

fn put_entry_turns(out: &mut Vec<(u32, u64)>, entries: &[Entry]) -> Result<(), NoMemory>
    requires { All (λ entry. entry.local + 1 < 2 ^ 64) entries.now }
    ensures { OnOk result (out.new.items ≡ out.old.items ++ map (λ entry. (entry.actor, entry.local + 1)) entries.now) }
{
    for entry in entries {
        out.push((entry.actor, entry.local + 1))?;
    }
    Ok(())
}

fn put_tail_turns(out: &mut Vec<(u32, u64)>, tails: &[u64]) -> Result<(), NoMemory>
    requires { length tails.now < 2 ^ 32 }
    ensures { OnOk result (out.new.items ≡ out.old.items ++ tail_turns 0 tails.now) }
{
    for (core, tail) in tails.iter().enumerate() {
        out.push((core as u32, *tail))?;
    }
    Ok(())
}
