//! Cases of the bus of a board.

ghost use Rattle.std.specs.Prelude.{◌≡◌, IfOk, length};
ghost use Rattle.std.specs.List.{AllByRecursion};
ghost use Rattle.n2_elf.specs.Reading.{IsSized};
ghost use Rattle.n2_parts.specs.Valid.{IsValid};

use crate::devices::count_in;
use crate::memories::counted;
use crate::shared;
use n2_board::{Layout, OpenFault};
use n2_bus::{Bus, Reply, Request};
use n2_cases::{NoAnswer, put, put_word, width_in, word_in, words_of};
use n2_elf::Image;
use n2_parts::Board;
use n2_word::{Width, aligned, line_of};
use std::alloc::Global;

/// `bus TEXT | REQUEST | ..`: what the bus of the board of a text, of one to three cores with empty
/// images whose entry is 0, replies to one request after another. A request is the number of its actor and
/// then `fillcode LINE`, `filldata LINE`, `writeback LINE WORD`, of eight words as for memories, `read WIDTH
/// ADDRESS`, `write WIDTH ADDRESS VALUE`, `sample`, `tick N`, `receive UART`, or `drain UART`. Between requests,
/// `line LINE`, `word ADDRESS` and `peek WIDTH ADDRESS` answer what a memory behind the bus holds, and `poke
/// WIDTH ADDRESS VALUE` stores there.
pub fn bus(alloc: Global, board: &Board, requests: &str, out: &mut Vec<u8>) -> Result<(), NoAnswer>
    requires { IsValid board.now }
{
    let mut bus = opened(alloc, board)?;
    put_replies(alloc, &mut bus, requests, out)
}

fn opened(alloc: Global, board: &Board) -> Result<Bus, NoAnswer>
    requires { IsValid board.now }
{
    match board.core.len() {
        1 => opened_with(alloc, board, &[empty(alloc)?]),
        2 => opened_with(alloc, board, &[empty(alloc)?, empty(alloc)?]),
        3 => opened_with(alloc, board, &[empty(alloc)?, empty(alloc)?, empty(alloc)?]),
        _ => Err(NoAnswer::NoCase),
    }
}

/// An image without bytes, whose entry is 0.
pub fn empty(alloc: Global) -> Result<Image, NoAnswer>
    ensures { IfOk result IsSized }
{
    match Image::raw(alloc, &[], 0) {
        Ok(image) => Ok(image),
        Err(_) => Err(NoAnswer::NoMemory),
    }
}

fn opened_with(alloc: Global, board: &Board, images: &[Image]) -> Result<Bus, NoAnswer>
    requires valid { IsValid board.now }
    requires images { length images.now ≡ length board.now.core }
    requires sized { AllByRecursion IsSized images.now }
{
    match Layout::open(alloc, board, images) {
        Ok(layout) => Ok(Bus::open(alloc, board, images, &layout)?),
        Err(OpenFault::NoMemory) => Err(NoAnswer::NoMemory),
        Err(_) => Err(NoAnswer::NoCase),
    }
}

fn put_replies(
    alloc: Global,
    bus: &mut Bus,
    requests: &str,
    out: &mut Vec<u8>,
) -> Result<(), NoAnswer> {
    shared(bus);
    for request in requests.split('|') {
        put_answer(bus, &words_of(alloc, request)?, out)?;
    }
    Ok(())
}

fn put_answer(bus: &mut Bus, words: &[&str], out: &mut Vec<u8>) -> Result<(), NoAnswer> {
    match *words {
        ["line", line] => put_line_of(bus, word_in(line)?, out),
        ["word", address] => put_word_at(bus, word_in(address)?, out),
        ["peek", width, address] => put_peeked(bus, word_in(address)?, width_in(width)?, out),
        ["poke", width, address, value] => {
            poke(bus, word_in(address)?, width_in(width)?, word_in(value)?)
        }
        _ => put_request(bus, words, out),
    }
}

/// Appends the words of a line of a memory.
fn put_line_of(bus: &Bus, line: u32, out: &mut Vec<u8>) -> Result<(), NoAnswer> {
    if !bus.has_line(line) {
        return put(out, " none;");
    }
    put_words(&bus.line(line), out)?;
    put(out, ";")
}

/// Appends the word of a memory at an address.
fn put_word_at(bus: &Bus, address: u32, out: &mut Vec<u8>) -> Result<(), NoAnswer> {
    if !bus.has_line(line_of(address)) || !aligned(address, Width::Word) {
        return put(out, " none;");
    }
    put_word(out, " ", bus.word(address))?;
    put(out, ";")
}

/// Appends what a memory holds at an address in a width.
fn put_peeked(bus: &Bus, address: u32, width: Width, out: &mut Vec<u8>) -> Result<(), NoAnswer> {
    if !bus.has_line(line_of(address)) || !aligned(address, width) {
        return put(out, " none;");
    }
    put_word(out, " ", bus.read(address, width))?;
    put(out, ";")
}

/// Stores in a memory.
fn poke(bus: &mut Bus, address: u32, width: Width, value: u32) -> Result<(), NoAnswer> {
    if bus.has_line(line_of(address)) && aligned(address, width) {
        bus.write(address, width, value);
        Ok(())
    } else {
        Err(NoAnswer::NoCase)
    }
}

fn put_request(bus: &mut Bus, words: &[&str], out: &mut Vec<u8>) -> Result<(), NoAnswer> {
    match words {
        [actor, kind, fields @ ..] => {
            put_asked(bus, count_in(actor)?, &request_in(kind, fields)?, out)
        }
        _ => Err(NoAnswer::NoCase),
    }
}

fn request_in(kind: &str, fields: &[&str]) -> Result<Request, NoAnswer> {
    match kind {
        "read" | "write" => access_in(kind, fields),
        "tick" | "receive" | "drain" => event_in(kind, fields),
        "sample" => Ok(Request::Sample),
        _ => line_in(kind, fields),
    }
}

fn access_in(kind: &str, fields: &[&str]) -> Result<Request, NoAnswer> {
    match (kind, fields) {
        ("read", [width, address]) => Ok(Request::Read(word_in(address)?, width_in(width)?)),
        ("write", [width, address, value]) => Ok(Request::Write(
            word_in(address)?,
            width_in(width)?,
            word_in(value)?,
        )),
        _ => Err(NoAnswer::NoCase),
    }
}

fn event_in(kind: &str, fields: &[&str]) -> Result<Request, NoAnswer> {
    match (kind, fields) {
        ("tick", [n]) => Ok(Request::Tick(count_in(n)?)),
        ("receive", [uart]) => Ok(Request::Receive(count_in(uart)?)),
        ("drain", [uart]) => Ok(Request::Drain(count_in(uart)?)),
        _ => Err(NoAnswer::NoCase),
    }
}

fn line_in(kind: &str, fields: &[&str]) -> Result<Request, NoAnswer> {
    match (kind, fields) {
        ("fillcode", [line]) => Ok(Request::FillCode(word_in(line)?)),
        ("filldata", [line]) => Ok(Request::FillData(word_in(line)?)),
        ("writeback", [line, word]) => {
            Ok(Request::WriteBack(word_in(line)?, counted(word_in(word)?)?))
        }
        _ => Err(NoAnswer::NoCase),
    }
}

/// Appends whether a request is proper, and the reply to a proper one.
fn put_asked(
    bus: &mut Bus,
    actor: u32,
    request: &Request,
    out: &mut Vec<u8>,
) -> Result<(), NoAnswer> {
    if !bus.proper(actor, request) {
        return put(out, " not proper;");
    }
    let reply = bus.transfer(actor, request);
    put(out, " proper")?;
    put_reply(&reply, out)
}

/// Appends a reply: its first word, and of the rest what is not 0 or false.
fn put_reply(reply: &Reply, out: &mut Vec<u8>) -> Result<(), NoAnswer> {
    put_words(&reply.words, out)?;
    if reply.lines != 0 {
        put_word(out, " lines ", reply.lines)?;
    }
    if reply.took {
        put(out, " took")?;
    }
    if reply.pointer != 0 {
        put_word(out, " pointer ", reply.pointer)?;
    }
    put(out, ";")
}

/// Appends the first word, or all eight where another is not 0.
fn put_words(words: &[u32; 8], out: &mut Vec<u8>) -> Result<(), NoAnswer> {
    let words = &words[..];
    let count = if words.iter().skip(1).any(|word| *word != 0) {
        8
    } else {
        1
    };
    for word in words.iter().take(count) {
        put_word(out, " ", *word)?;
    }
    Ok(())
}
