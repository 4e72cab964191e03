//! The text of a journal, row by row.

ghost use Rattle.std.specs.Prelude.{◌≡◌, ◌++◌, ◌∷◌, [], length, map, OnOk, IfOk, decimal, codes};
ghost use Rattle.n2_text.specs.Fields.{word_text};
ghost use Rattle.n2_journal.specs.Journals.{first_word};
ghost use Rattle.n2_journal.specs.Texts as spec;
ghost use Rattle.n2_journal.specs.Texts.{spaced, width_text, bit_text, line_text, words_fields, access_fields, body_fields, actor_text, entry_row, tail_row, tail_rows, rows_text, journal_text};

use crate::entry::Entry;
use crate::journal::Journal;
use n2_bus::{Reply, Request};
use n2_text::{put_number, put_text, put_word};
use n2_word::{NoMemory, Width};
use std::alloc::Global;

// ---- fields, each with a space in front

fn put_field(out: &mut Vec<u8>, field: &[u8]) -> Result<(), NoMemory>
    ensures { OnOk result (out.new.items ≡ out.old.items ++ 32 ∷ field.now) }
{
    put_text(out, b" ")?;
    put_text(out, field)
}

fn put_word_field(out: &mut Vec<u8>, word: u32) -> Result<(), NoMemory>
    ensures { OnOk result (out.new.items ≡ out.old.items ++ 32 ∷ word_text word) }
{
    put_text(out, b" ")?;
    put_word(out, word)
}

fn put_number_field(out: &mut Vec<u8>, n: u64) -> Result<(), NoMemory>
    ensures { OnOk result (out.new.items ≡ out.old.items ++ 32 ∷ decimal n) }
{
    put_text(out, b" ")?;
    put_number(out, n)
}

fn put_bit_field(out: &mut Vec<u8>, bit: bool) -> Result<(), NoMemory>
    ensures { OnOk result (out.new.items ≡ out.old.items ++ 32 ∷ bit_text bit) }
{
    if bit {
        put_text(out, b" 1")
    } else {
        put_text(out, b" 0")
    }
}

fn put_width_field(out: &mut Vec<u8>, width: Width) -> Result<(), NoMemory>
    ensures { OnOk result (out.new.items ≡ out.old.items ++ 32 ∷ width_text width) }
{
    match width {
        Width::Byte => put_text(out, b" 1"),
        Width::Half => put_text(out, b" 2"),
        Width::Word => put_text(out, b" 4"),
    }
}

fn put_words(out: &mut Vec<u8>, words: &[u32]) -> Result<(), NoMemory>
    ensures { OnOk result (out.new.items ≡ out.old.items ++ spaced (words_fields words.now)) }
{
    for word in words {
        put_word_field(out, *word)?;
    }
    Ok(())
}

/// A line's first address.
fn put_line_field(out: &mut Vec<u8>, line: u32) -> Result<(), NoMemory>
    ensures { OnOk result (out.new.items ≡ out.old.items ++ 32 ∷ line_text line) }
{
    put_word_field(out, line.wrapping_mul(32))
}

/// A line's first address and its words.
fn put_line(out: &mut Vec<u8>, line: u32, words: &[u32]) -> Result<(), NoMemory>
    ensures { OnOk result (out.new.items ≡ out.old.items ++ spaced (line_text line ∷ words_fields words.now)) }
{
    put_line_field(out, line)?;
    put_words(out, words)
}

/// The width, the address and the value of a load or store past the caches, and its reply.
fn put_access(
    out: &mut Vec<u8>,
    address: u32,
    width: Width,
    value: u32,
    reply: &Reply,
) -> Result<(), NoMemory>
    ensures { OnOk result (out.new.items ≡ out.old.items ++ spaced (width_text width ∷ word_text address ∷ word_text value ∷ access_fields reply.now)) }
{
    put_width_field(out, width)?;
    put_word_field(out, address)?;
    put_word_field(out, value)?;
    put_word_field(out, reply.lines)?;
    put_bit_field(out, reply.took)?;
    put_word_field(out, reply.pointer)
}

/// A UART, and whether a byte moved.
fn put_moved(out: &mut Vec<u8>, uart: u32, took: bool) -> Result<(), NoMemory>
    ensures { OnOk result (out.new.items ≡ out.old.items ++ spaced (decimal uart ∷ bit_text took ∷ [])) }
{
    put_number_field(out, u64::from(uart))?;
    put_bit_field(out, took)
}

/// What was asked for, and what was replied.
#[tactic(auto, unfolding(crate::specs::Texts::body_fields))]
fn put_body(out: &mut Vec<u8>, request: &Request, reply: &Reply) -> Result<(), NoMemory>
    ensures { OnOk result (out.new.items ≡ out.old.items ++ spaced (body_fields request.now reply.now)) }
{
    match request {
        Request::FillCode(line) => {
            put_text(out, b" code")?;
            put_line(out, *line, &reply.words)
        }
        Request::FillData(line) => {
            put_text(out, b" fill")?;
            put_line(out, *line, &reply.words)
        }
        Request::WriteBack(line, words) => {
            put_text(out, b" back")?;
            put_line(out, *line, words)
        }
        Request::Read(address, width) => {
            put_text(out, b" read")?;
            put_access(out, *address, *width, reply.words[0], reply)
        }
        Request::Write(address, width, value) => {
            put_text(out, b" write")?;
            put_access(out, *address, *width, *value, reply)
        }
        Request::Sample => {
            put_text(out, b" sample")?;
            put_word_field(out, reply.lines)
        }
        Request::Tick(n) => {
            put_text(out, b" tick")?;
            put_number_field(out, u64::from(*n))
        }
        Request::Receive(uart) => {
            put_text(out, b" receive")?;
            put_moved(out, *uart, reply.took)
        }
        Request::Drain(uart) => {
            put_text(out, b" drain")?;
            put_moved(out, *uart, reply.took)
        }
    }
}

// ---- rows

fn put_actor(out: &mut Vec<u8>, cores: usize, actor: u32) -> Result<(), NoMemory>
    ensures { OnOk result (out.new.items ≡ out.old.items ++ actor_text cores actor) }
{
    if actor as usize == cores {
        put_text(out, b"d")
    } else {
        put_number(out, u64::from(actor))
    }
}

#[tactic(auto, using(crate::proofs::Steps::row_spaced, std::proofs::Common::append_assoc))]
fn put_entry(out: &mut Vec<u8>, cores: usize, entry: &Entry) -> Result<(), NoMemory>
    ensures { OnOk result (out.new.items ≡ out.old.items ++ entry_row cores entry.now ++ 10 ∷ []) }
{
    put_actor(out, cores, entry.actor)?;
    put_number_field(out, entry.local)?;
    put_body(out, &entry.request, &entry.reply)?;
    put_text(out, b"\n")
}

fn put_entries(out: &mut Vec<u8>, cores: usize, entries: &[Entry]) -> Result<(), NoMemory>
    ensures { OnOk result (out.new.items ≡ out.old.items ++ rows_text (map (entry_row cores) entries.now)) }
{
    for entry in entries {
        put_entry(out, cores, entry)?;
    }
    Ok(())
}

fn put_tail(out: &mut Vec<u8>, core: usize, tail: u64) -> Result<(), NoMemory>
    ensures { OnOk result (out.new.items ≡ out.old.items ++ tail_row core tail ++ 10 ∷ []) }
{
    put_text(out, b"tail")?;
    put_number_field(out, core as u64)?;
    put_number_field(out, tail)?;
    put_text(out, b"\n")
}

fn put_tails(out: &mut Vec<u8>, tails: &[u64]) -> Result<(), NoMemory>
    ensures { OnOk result (out.new.items ≡ out.old.items ++ rows_text (tail_rows 0 tails.now)) }
{
    for (core, tail) in tails.iter().enumerate() {
        put_tail(out, core, *tail)?;
    }
    Ok(())
}

impl Journal {
    /// The text of the journal. It is read again as this journal where that is within the limits.
    #[tactic(auto, unfolding(crate::specs::Texts::journal_text))]
    pub fn write_text(&self, alloc: Global) -> Result<Vec<u8>, NoMemory>
        ensures { IfOk result (λ text. text.items ≡ journal_text self.now.content) }
    {
        let entries = self.entries();
        let tails = self.tails();
        let mut out = Vec::new(alloc);
        put_text(&mut out, b"nios2 journal 1\n")?;
        put_entries(&mut out, tails.len(), entries)?;
        put_tails(&mut out, tails)?;
        put_text(&mut out, b"end\n")?;
        Ok(out)
    }
}
