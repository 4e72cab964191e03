//! The entry of a row, field by field.

ghost use Rattle.std.specs.Prelude.{◌≡◌, [], ◌∷◌, replicate, false, option_map};
ghost use Rattle.std.specs.List.{list_all};
ghost use Rattle.n2_text.specs.Fields.{numeral, is_digit};
ghost use Rattle.std.specs.Str.{bytes_eq};
ghost use Rattle.n2_journal.specs.Cursors as cursors;
ghost use Rattle.n2_journal.specs.Journals.{no_words, words_reply};
ghost use Rattle.n2_journal.specs.Reading as spec;

use crate::cursor::Fields;
use crate::entry::Entry;
use n2_bus::{Reply, Request};
use n2_word::{Width, aligned};

/// The number that stands for the device actor until the number of cores is known.
pub const DEVICE_MARK: u32 = 8;

/// The number that stands for a core that no journal has.
const NO_CORE: u32 = 9;

/// Whether a field is a word of the grammar.
#[inline(always)]
pub fn is(field: &[u8], word: &[u8]) -> bool
    ensures { result ≡ bytes_eq field.now word.now }
{
    field == word
}

#[inline(always)]
fn words_reply(words: [u32; 8]) -> Reply
    ensures { result ≡ words_reply words }
{
    Reply {
        words,
        lines: 0,
        took: false,
        pointer: 0,
    }
}

fn first_word(value: u32) -> [u32; 8]
    ensures { result ≡ value ∷ replicate 7 0 }
{
    [value, 0, 0, 0, 0, 0, 0, 0]
}

/// The first address of a line, as the line's number.
#[tactic(auto, unfolding(crate::specs::Reading::next_line_number))]
#[inline(always)]
fn line_number(fields: Fields<'_>) -> Option<(u32, Fields<'_>)>
    ensures { result ≡ spec.next_line_number fields.entry }
{
    let (address, fields) = fields.word()?;
    if address < 0x8000_0000 && address % 32 == 0 {
        Some((address / 32, fields))
    } else {
        None
    }
}

/// A line's number and its words.
#[tactic(auto, unfolding(crate::specs::Reading::line_in))]
#[inline(always)]
fn line_in(fields: Fields<'_>) -> Option<(u32, [u32; 8])>
    ensures { result ≡ spec.line_in fields.entry }
{
    let (line, fields) = line_number(fields)?;
    let (words, fields) = fields.line()?;
    if fields.is_empty() {
        Some((line, words))
    } else {
        None
    }
}

/// What a row tells of a load or store past the caches.
#[derive(Clone, Copy, Debug, PartialEq, Eq)]
pub struct Access {
    pub width: Width,
    pub address: u32,
    pub value: u32,
    pub lines: u32,
    pub took: bool,
    pub pointer: u32,
}

#[tactic(auto, unfolding(crate::specs::Reading::access_in))]
#[inline(always)]
fn access_in(fields: Fields<'_>) -> Option<Access>
    ensures { result ≡ spec.access_in fields.entry }
{
    let (width, fields) = fields.width()?;
    let (address, fields) = fields.word()?;
    let (value, fields) = fields.word()?;
    let (lines, fields) = fields.word()?;
    let (took, fields) = fields.bit()?;
    let (pointer, fields) = fields.word()?;
    if address < 0x8000_0000 && aligned(address, width) && fields.is_empty() {
        Some(Access {
            width,
            address,
            value,
            lines,
            took,
            pointer,
        })
    } else {
        None
    }
}

#[inline(always)]
fn code_in(fields: Fields<'_>) -> Option<(Request, Reply)>
    ensures { result ≡ spec.code_in fields.entry }
{
    let (line, words) = line_in(fields)?;
    Some((Request::FillCode(line), words_reply(words)))
}

#[inline(always)]
fn fill_in(fields: Fields<'_>) -> Option<(Request, Reply)>
    ensures { result ≡ spec.fill_in fields.entry }
{
    let (line, words) = line_in(fields)?;
    Some((Request::FillData(line), words_reply(words)))
}

#[inline(always)]
fn back_in(fields: Fields<'_>) -> Option<(Request, Reply)>
    ensures { result ≡ spec.back_in fields.entry }
{
    let (line, words) = line_in(fields)?;
    Some((Request::WriteBack(line, words), words_reply([0; 8])))
}

#[inline(always)]
fn read_in(fields: Fields<'_>) -> Option<(Request, Reply)>
    ensures { result ≡ spec.read_in fields.entry }
{
    let access = access_in(fields)?;
    Some((
        Request::Read(access.address, access.width),
        Reply {
            words: first_word(access.value),
            lines: access.lines,
            took: access.took,
            pointer: access.pointer,
        },
    ))
}

#[inline(always)]
fn write_in(fields: Fields<'_>) -> Option<(Request, Reply)>
    ensures { result ≡ spec.write_in fields.entry }
{
    let access = access_in(fields)?;
    Some((
        Request::Write(access.address, access.width, access.value),
        Reply {
            words: [0; 8],
            lines: access.lines,
            took: access.took,
            pointer: access.pointer,
        },
    ))
}

fn sample_in(fields: Fields<'_>) -> Option<(Request, Reply)>
    ensures { result ≡ spec.sample_in fields.entry }
{
    let (lines, fields) = fields.word()?;
    if fields.is_empty() {
        Some((
            Request::Sample,
            Reply {
                words: [0; 8],
                lines,
                took: false,
                pointer: 0,
            },
        ))
    } else {
        None
    }
}

fn tick_in(fields: Fields<'_>) -> Option<(Request, Reply)>
    ensures { result ≡ spec.tick_in fields.entry }
{
    let (n, fields) = fields.number(0xffff_ffff)?;
    if n != 0 && fields.is_empty() {
        Some((Request::Tick(n as u32), words_reply([0; 8])))
    } else {
        None
    }
}

/// A UART, and whether a byte moved.
#[tactic(auto, unfolding(crate::specs::Reading::moved_in))]
fn moved_in(fields: Fields<'_>) -> Option<(u32, bool)>
    ensures { result ≡ spec.moved_in fields.entry }
{
    let (uart, fields) = fields.number(7)?;
    let (took, fields) = fields.bit()?;
    if fields.is_empty() {
        Some((uart as u32, took))
    } else {
        None
    }
}

fn moved_reply(took: bool) -> Reply
    ensures { result ≡ spec.moved_reply took }
{
    Reply {
        words: [0; 8],
        lines: 0,
        took,
        pointer: 0,
    }
}

fn receive_in(fields: Fields<'_>) -> Option<(Request, Reply)>
    ensures { result ≡ spec.receive_in fields.entry }
{
    let (uart, took) = moved_in(fields)?;
    Some((Request::Receive(uart), moved_reply(took)))
}

fn drain_in(fields: Fields<'_>) -> Option<(Request, Reply)>
    ensures { result ≡ spec.drain_in fields.entry }
{
    let (uart, took) = moved_in(fields)?;
    Some((Request::Drain(uart), moved_reply(took)))
}

/// What a core asks for, and the reply.
#[tactic(auto, unfolding(crate::specs::Reading::core_body))]
#[inline(always)]
fn core_body(kind: &[u8], fields: Fields<'_>) -> Option<(Request, Reply)>
    ensures { result ≡ spec.core_body kind.now fields.entry }
{
    if is(kind, b"code") {
        code_in(fields)
    } else if is(kind, b"fill") {
        fill_in(fields)
    } else if is(kind, b"back") {
        back_in(fields)
    } else if is(kind, b"read") {
        read_in(fields)
    } else if is(kind, b"write") {
        write_in(fields)
    } else if is(kind, b"sample") {
        sample_in(fields)
    } else {
        None
    }
}

/// What the device actor asks for, and the reply.
#[tactic(auto, unfolding(crate::specs::Reading::device_body))]
fn device_body(kind: &[u8], fields: Fields<'_>) -> Option<(Request, Reply)>
    ensures { result ≡ spec.device_body kind.now fields.entry }
{
    if is(kind, b"tick") {
        tick_in(fields)
    } else if is(kind, b"receive") {
        receive_in(fields)
    } else if is(kind, b"drain") {
        drain_in(fields)
    } else {
        None
    }
}

fn are_digits(field: &[u8]) -> bool
    ensures { result ≡ list_all is_digit field.now }
{
    field.iter().all(|c| b'0' <= *c && *c < b'0' + 10)
}

/// The number of a core, in one digit.
#[inline(always)]
fn core_digit(c: u8) -> Option<u32>
    ensures { result ≡ option_map spec.core_mark (numeral (c ∷ [])) }
{
    match c {
        b'0'..=b'7' => Some(u32::from(c - b'0')),
        b'8' | b'9' => Some(NO_CORE),
        _ => None,
    }
}

/// The number of a core, in any number of digits.
#[tactic(auto, unfolding(crate::specs::Reading::core_of), using(crate::proofs::Steps::leading_zero, crate::proofs::Steps::long_number))]
#[inline(always)]
fn core_of(field: &[u8]) -> Option<u32>
    ensures { result ≡ spec.core_of field.now }
{
    match field {
        [] => None,
        [c] => core_digit(*c),
        [b'0', ..] => None,
        _ => {
            if are_digits(field) {
                Some(NO_CORE)
            } else {
                None
            }
        }
    }
}

#[tactic(auto, unfolding(crate::specs::Reading::core_entry))]
#[inline(always)]
fn core_entry(core: u32, fields: Fields<'_>) -> Option<Entry>
    ensures { result ≡ spec.core_entry core fields.entry }
{
    let (local, fields) = fields.number(1_000_000_000)?;
    let (kind, fields) = fields.field()?;
    let (request, reply) = core_body(kind, fields)?;
    Some(Entry {
        local,
        actor: core,
        request,
        reply,
    })
}

#[tactic(auto, unfolding(crate::specs::Reading::device_entry))]
fn device_entry(fields: Fields<'_>) -> Option<Entry>
    ensures { result ≡ spec.device_entry fields.entry }
{
    let (local, fields) = fields.number(0)?;
    let (kind, fields) = fields.field()?;
    let (request, reply) = device_body(kind, fields)?;
    Some(Entry {
        local,
        actor: DEVICE_MARK,
        request,
        reply,
    })
}

/// The entry of the field of an actor and the fields behind it.
#[tactic(auto, unfolding(crate::specs::Reading::entry_in))]
pub fn entry_in(actor: &[u8], fields: Fields<'_>) -> Option<Entry>
    ensures { result ≡ spec.entry_in actor.now fields.entry }
{
    if is(actor, b"d") {
        device_entry(fields)
    } else {
        let core = core_of(actor)?;
        core_entry(core, fields)
    }
}
