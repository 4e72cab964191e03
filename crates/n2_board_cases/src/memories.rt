//! Cases of memories.

ghost use Rattle.std.specs.Prelude.{◌≡◌, IsTrue, IfOk};
ghost use Rattle.std.specs.List.{AllByRecursion};
ghost use Rattle.n2_elf.specs.Reading.{HoldsItsBytes, IsSized};
ghost use Rattle.n2_memory.specs.Start.{IsInside};
ghost use Rattle.n2_parts.specs.Valid.{IsValid};

use crate::halves;
use n2_cases::{NoAnswer, bytes_in, put, put_shown, put_word, width_in, word_in, words_of};
use n2_elf::{Image, Segment};
use n2_memory::Memory;
use n2_parts::{Board, bytes_from, is_inside};
use n2_text::Items;
use n2_word::{Width, aligned, line_of};
use std::alloc::Global;

/// `memory TEXT | AT SIZE TEXT | AT SIZE TEXT | AT SIZE TEXT | STEP | ..`: what the memories of the board
/// of a text, with these three segments in them, answer to one step after another. A step is `line
/// LINE ..`, `read WIDTH ADDRESS`, `word ADDRESS`, `write WIDTH ADDRESS VALUE`, or `put LINE WORD`, which
/// puts eight words, of which each is the one before and 1.
pub fn memory(alloc: Global, board: &Board, rest: &str, out: &mut Vec<u8>) -> Result<(), NoAnswer>
    requires { IsValid board.now }
{
    let (first, rest) = halves(rest, '|')?;
    let (second, rest) = halves(rest, '|')?;
    let (third, steps) = halves(rest, '|')?;
    let mut memory = opened(alloc, board, [first, second, third])?;
    put_steps(alloc, &mut memory, steps, out)
}

/// The memories of a board with three segments in them, which are given by fields.
fn opened(alloc: Global, board: &Board, fields: [&str; 3]) -> Result<Memory, NoAnswer>
    requires { IsValid board.now }
{
    let first = image_in(alloc, board, fields[0])?;
    let second = image_in(alloc, board, fields[1])?;
    let third = image_in(alloc, board, fields[2])?;
    Ok(Memory::open(alloc, board, &[first, second, third])?)
}

/// The image of the segment of a field alone.
fn image_in(alloc: Global, board: &Board, field: &str) -> Result<Image, NoAnswer>
    ensures { IfOk result (λ image. AllByRecursion (IsInside board.now.memory) image.segments × IsSized image) }
{
    let mut segments = Items::new(alloc);
    segments.push(segment_in(alloc, board, field.trim())?)?;
    Ok(Image { entry: 0, segments })
}

/// The segment of a field, which lies in a memory of the board.
fn segment_in(alloc: Global, board: &Board, field: &str) -> Result<Segment, NoAnswer>
    ensures { IfOk result (λ s. IsInside board.now.memory s × HoldsItsBytes s) }
{
    let (at, rest) = halves(field, ' ')?;
    let (size, text) = halves(rest, ' ')?;
    let segment = Segment {
        at: word_in(at)?,
        bytes: Items::from_vec(bytes_in(alloc, text)?),
        size: word_in(size)?,
        exec: false,
        write: true,
    };
    if fits(board, &segment) {
        Ok(segment)
    } else {
        Err(NoAnswer::NoCase)
    }
}

fn fits(board: &Board, s: &Segment) -> bool
    ensures { IsTrue result → IsInside board.now.memory s.now × HoldsItsBytes s.now }
{
    is_inside(board.memory.as_slice(), bytes_from(s.at, s.size)) && s.bytes.len() <= s.size as usize
}

fn put_steps(
    alloc: Global,
    memory: &mut Memory,
    steps: &str,
    out: &mut Vec<u8>,
) -> Result<(), NoAnswer> {
    for step in steps.split('|') {
        put_step(memory, &words_of(alloc, step)?, out)?;
    }
    Ok(())
}

fn put_step(memory: &mut Memory, words: &[&str], out: &mut Vec<u8>) -> Result<(), NoAnswer> {
    match *words {
        ["line", line] => put_line_of(memory, word_in(line)?, out),
        ["read", width, address] => put_read(memory, word_in(address)?, width_in(width)?, out),
        ["word", address] => put_word_at(memory, word_in(address)?, out),
        ["write", width, address, value] => {
            let address = word_in(address)?;
            written(memory, address, width_in(width)?, word_in(value)?)
        }
        ["put", line, word] => line_put(memory, word_in(line)?, word_in(word)?),
        _ => Err(NoAnswer::NoCase),
    }
}

/// Appends the words of a line.
fn put_line_of(memory: &Memory, line: u32, out: &mut Vec<u8>) -> Result<(), NoAnswer> {
    if !memory.has_line(line) {
        return put(out, " none;");
    }
    for word in memory.line(line) {
        put_word(out, " ", word)?;
    }
    put(out, ";")
}

fn put_read(
    memory: &Memory,
    address: u32,
    width: Width,
    out: &mut Vec<u8>,
) -> Result<(), NoAnswer> {
    if memory.has_line(line_of(address)) && aligned(address, width) {
        put_word(out, " ", memory.read(address, width))
    } else {
        put(out, " none")
    }
}

fn put_word_at(memory: &Memory, address: u32, out: &mut Vec<u8>) -> Result<(), NoAnswer> {
    if memory.has_line(line_of(address)) && aligned(address, Width::Word) {
        put_word(out, " ", memory.word(address))
    } else {
        put(out, " none")
    }
}

fn written(memory: &mut Memory, address: u32, width: Width, value: u32) -> Result<(), NoAnswer> {
    if memory.has_line(line_of(address)) && aligned(address, width) {
        memory.write(address, width, value);
        Ok(())
    } else {
        Err(NoAnswer::NoCase)
    }
}

fn line_put(memory: &mut Memory, line: u32, word: u32) -> Result<(), NoAnswer> {
    if !memory.has_line(line) {
        return Err(NoAnswer::NoCase);
    }
    memory.put_line(line, &counted(word)?);
    Ok(())
}

/// Eight words, of which each is the one before and 1.
pub fn counted(word: u32) -> Result<[u32; 8], NoAnswer> {
    if word > 0xffff_fff0 {
        return Err(NoAnswer::NoCase);
    }
    Ok([
        word,
        word + 1,
        word + 2,
        word + 3,
        word + 4,
        word + 5,
        word + 6,
        word + 7,
    ])
}
