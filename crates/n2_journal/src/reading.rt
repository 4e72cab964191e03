//! Reading a journal row by row, up to the first row that is outside of the grammar.

ghost use Rattle.std.specs.Prelude.{◌≡◌, ◌≢◌, ◌<◌, IfSome, IfOk, IfErr, MatchOption, Ok, Err, Some, None, if◌then◌else◌};
ghost use Rattle.n2_journal.specs.Cursors.{parts_of};
ghost use Rattle.n2_journal.specs.Journals.{IsWithinLimits, HasOrder};
ghost use Rattle.n2_journal.specs.Reading as spec;
ghost use Rattle.n2_journal.specs.Reading.{State, begin, step, placed, settle, settled, run, read};

use crate::cursor::{Fields, first_part};
use crate::entry::Entry;
use crate::journal::{Journal, JournalFault};
use crate::rows::{DEVICE_MARK, entry_in, is};
use n2_word::NoMemory;
use std::alloc::Global;
use std::marker::Model;

/// The most entries of a journal.
const MOST_ENTRIES: usize = 1_000_000;

/// Before the first row, behind it, and behind the row `end`.
#[derive(Clone, Copy, Debug, PartialEq, Eq)]
pub enum Stage {
    Head,
    Rows,
    Ended,
}

/// What has been read.
#[derive(Drop)]
struct Reader {
    stage: Stage,
    entries: Vec<Entry>,
    tails: Vec<u64>,
}

impl Model for Reader {
    ghost use Rattle.std.specs.Prelude.{◌≤◌, vec_len};
    ghost use Rattle.n2_journal.specs.Reading.{State};

    ghost Value = { State };

    ghost view = { λ r. record { stage = r.stage; entries = r.entries.items; tails = r.tails.items } };

    ghost invariant = { λ r. vec_len r.tails ≤ 8 };
}

impl Reader {
    fn new(alloc: Global, room: usize) -> Result<Reader, NoMemory>
        ensures { IfOk result (λ r. r ≡ begin) }
    {
        match Vec::with_capacity(alloc, room) {
            Ok(entries) => Ok(Reader {
                stage: Stage::Head,
                entries,
                tails: Vec::new(alloc),
            }),
            Err(_) => Err(NoMemory),
        }
    }

    /// An entry, where no tail stands before it.
    fn add_entry(&mut self, entry: Entry) -> Result<bool, NoMemory>
        ensures { IfOk result (λ inside. spec.add_entry self.old entry ≡ (if inside then Some self.new else None)) }
    {
        if !self.tails.is_empty() || self.entries.len() >= MOST_ENTRIES {
            return Ok(false);
        }
        self.entries.push(entry)?;
        Ok(true)
    }

    /// The tail of the next core.
    fn add_tail(&mut self, core: u64, tail: u64) -> Result<bool, NoMemory>
        requires { core < 8 }
        ensures { IfOk result (λ inside. spec.add_tail self.old core tail ≡ (if inside then Some self.new else None)) }
    {
        if core != self.tails.len() as u64 {
            return Ok(false);
        }
        self.tails.push(tail)?;
        Ok(true)
    }

    /// `end`, alone in its row and behind a tail.
    #[tactic(auto, unfolding(crate::specs::Reading::end_in))]
    fn end_in(&mut self, fields: Fields<'_>) -> bool
        ensures { spec.end_in self.old fields.entry ≡ (if result then Some self.new else None) }
    {
        if fields.is_empty() && !self.tails.is_empty() {
            self.stage = Stage::Ended;
            true
        } else {
            false
        }
    }

    /// A row behind the first one.
    #[tactic(auto, unfolding(crate::specs::Reading::row_in))]
    fn row_in(&mut self, fields: Fields<'_>) -> Result<bool, NoMemory>
        ensures { IfOk result (λ inside. spec.row_in self.old fields.entry ≡ (if inside then Some self.new else None)) }
    {
        let Some((first, fields)) = fields.field() else {
            return Ok(false);
        };
        if is(first, b"end") {
            Ok(self.end_in(fields))
        } else if is(first, b"tail") {
            match tail_of(fields) {
                Some((core, tail)) => self.add_tail(core, tail),
                None => Ok(false),
            }
        } else {
            match entry_in(first, fields) {
                Some(entry) => self.add_entry(entry),
                None => Ok(false),
            }
        }
    }

    /// Adds a row, where it may stand here.
    #[tactic(auto, unfolding(crate::specs::Reading::step))]
    fn add_row(&mut self, row: &[u8]) -> Result<bool, NoMemory>
        ensures { IfOk result (λ inside. step self.old row.now ≡ (if inside then Some self.new else None)) }
    {
        match self.stage {
            Stage::Head => {
                if is(row, b"nios2 journal 1") {
                    self.stage = Stage::Rows;
                    Ok(true)
                } else {
                    Ok(false)
                }
            }
            Stage::Rows => self.row_in(Fields::new(row)),
            Stage::Ended => Ok(false),
        }
    }
}

/// A core, of which there are at most eight, and its turns.
#[tactic(auto, unfolding(crate::specs::Reading::tail_of))]
fn tail_of(fields: Fields<'_>) -> Option<(u64, u64)>
    ensures value { result ≡ spec.tail_of fields.entry }
    ensures small { IfSome result (λ tail. tail.0 < 8) }
{
    let (core, fields) = fields.number(7)?;
    let (tail, fields) = fields.number(1_000_000_000)?;
    if fields.is_empty() {
        Some((core, tail))
    } else {
        None
    }
}

/// What stands behind all rows: what was read, the piece behind the last line feed, and its row.
#[tactic(auto, unfolding(crate::specs::Reading::read))]
fn all_rows(alloc: Global, text: &[u8]) -> Result<(Reader, &[u8], u64), JournalFault>
    ensures rows { IfOk result (λ x. read text.now ≡ spec.finish_at x.0.stage x.0 x.2 x.1.now) }
    ensures fault { IfErr result (λ fault. fault ≢ JournalFault.NoMemory → read text.now ≡ Err fault) }
{
    let mut reader = Reader::new(alloc, room_for(text))?;
    let mut rest = text;
    let mut row = 1u64;
    while let Some((this, behind)) = first_part(b'\n', rest) {
        if !reader.add_row(this)? {
            return Err(JournalFault::NotJournal(row));
        }
        rest = behind;
        row += 1;
    }
    Ok((reader, rest, row))
}

/// For how many entries there are rows.
fn room_for(text: &[u8]) -> usize {
    text.iter()
        .filter(|c| **c == b'\n')
        .count()
        .min(MOST_ENTRIES)
}

/// Gives an entry the number of its actor, where there is that actor.
fn place(entry: &mut Entry, cores: u32) -> bool
    ensures { placed cores entry.old ≡ (if result then Some entry.new else None) }
{
    if entry.actor == DEVICE_MARK {
        entry.actor = cores;
        true
    } else {
        entry.actor < cores
    }
}

/// Gives the entries the numbers of their actors, or the first row whose actor there is not.
fn place_all(entries: &mut [Entry], cores: u32) -> Option<u64>
    ensures { MatchOption result (settle cores 2 entries.old ≡ Ok entries.new) (λ row. settle cores 2 entries.old ≡ Err (JournalFault.NotJournal row)) }
{
    for i in 0..entries.len() {
        if !place(&mut entries[i], cores) {
            return Some(i as u64 + 2);
        }
    }
    None
}

fn settled_of(reader: Reader) -> Result<Journal, JournalFault>
    ensures ok { IfOk result (λ j. settled reader ≡ Ok j.content) }
    ensures limit { IfOk result (λ j. j.limit ≡ 0) }
    ensures fault { IfErr result (λ fault. settled reader ≡ Err fault) }
{
    let Reader {
        stage: _,
        mut entries,
        tails,
    } = reader;
    match place_all(&mut entries, tails.len() as u32) {
        Some(row) => Err(JournalFault::NotJournal(row)),
        None => Ok(Journal::of_text(entries, tails)),
    }
}

#[tactic(auto, unfolding(crate::specs::Reading::read))]
fn read_all(alloc: Global, bytes: &[u8]) -> Result<Journal, JournalFault>
    ensures ok { IfOk result (λ j. read bytes.now ≡ Ok j.content) }
    ensures limit { IfOk result (λ j. j.limit ≡ 0) }
    ensures fault { IfErr result (λ fault. fault ≢ JournalFault.NoMemory → read bytes.now ≡ Err fault) }
{
    let (reader, last, row) = all_rows(alloc, bytes)?;
    match reader.stage {
        Stage::Ended => {
            if last.is_empty() {
                settled_of(reader)
            } else {
                Err(JournalFault::NotJournal(row))
            }
        }
        _ => Err(JournalFault::Cut),
    }
}

/// The journal of a text. Its memory is taken once, for as many entries as there are rows.
pub fn read_text(alloc: Global, bytes: &[u8]) -> Result<Journal, JournalFault>
    ensures ok { IfOk result (λ j. read bytes.now ≡ Ok j.content) }
    ensures within { IfOk result (λ j. IsWithinLimits j.content) }
    ensures order { IfOk result (λ j. HasOrder j.content) }
    ensures limit { IfOk result (λ j. j.limit ≡ 0) }
    ensures fault { IfErr result (λ fault. fault ≢ JournalFault.NoMemory → read bytes.now ≡ Err fault) }
{
    read_all(alloc, bytes)
}
