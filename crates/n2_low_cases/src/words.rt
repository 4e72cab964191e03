//! Cases of words, numbers and lanes.

use n2_cases::{NoAnswer, bytes_in, number_in, put, put_shown, put_word, width_in, word_in};
use n2_text::{hex_word, numeral, numeral_up_to};
use n2_word::{Width, aligned, extract, line_of, merge, set_of, sign8, sign16};
use std::alloc::Global;

/// `number TEXT`: the number that a text is, or `none`.
pub fn number(text: &[u8], out: &mut Vec<u8>) -> Result<(), NoAnswer> {
    put_number(numeral(text), out)
}

/// `upto MOST TEXT`: the same, where it is no greater than MOST.
pub fn up_to(alloc: Global, rest: &str, out: &mut Vec<u8>) -> Result<(), NoAnswer> {
    let (most, text) = rest.split_once(' ').ok_or(NoAnswer::NoCase)?;
    let most = number_in(u64::MAX, most)?;
    put_number(numeral_up_to(most, &bytes_in(alloc, text)?), out)
}

fn put_number(number: Option<u64>, out: &mut Vec<u8>) -> Result<(), NoAnswer> {
    match number {
        Some(n) => put_shown(out, "", &n),
        None => put(out, "none"),
    }
}

/// `word TEXT`: the word that a text is, and its number, or `none`.
pub fn word(text: &[u8], out: &mut Vec<u8>) -> Result<(), NoAnswer> {
    match hex_word(text) {
        Some(word) => {
            put_word(out, "", word)?;
            put_shown(out, " ", &word)
        }
        None => put(out, "none"),
    }
}

/// A case of one of the kinds below.
pub fn answer(kind: &str, words: &[&str], out: &mut Vec<u8>) -> Result<(), NoAnswer> {
    match kind {
        "sign" => put_extended(words, out),
        "line" => put_line(words, out),
        "set" => put_set(words, out),
        "aligned" => put_aligned(words, out),
        "lane" => lane(words, out),
        _ => merged(words, out),
    }
}

/// `sign byte WORD` and `sign half WORD`: a byte or half with its sign extended.
fn put_extended(words: &[&str], out: &mut Vec<u8>) -> Result<(), NoAnswer> {
    let [width, word] = *words else {
        return Err(NoAnswer::NoCase);
    };
    let word = word_in(word)?;
    match width {
        "byte" => put_word(out, "", extended_byte(word)?),
        "half" => put_word(out, "", extended_half(word)?),
        _ => Err(NoAnswer::NoCase),
    }
}

/// `line WORD`: the line of an address.
fn put_line(words: &[&str], out: &mut Vec<u8>) -> Result<(), NoAnswer> {
    let [address] = *words else {
        return Err(NoAnswer::NoCase);
    };
    put_word(out, "", line_of(word_in(address)?))
}

/// `aligned WORD WIDTH`: whether an address is aligned.
fn put_aligned(words: &[&str], out: &mut Vec<u8>) -> Result<(), NoAnswer> {
    let [address, width] = *words else {
        return Err(NoAnswer::NoCase);
    };
    let address = word_in(address)?;
    put_shown(out, "", &aligned(address, width_in(width)?))
}

fn extended_byte(byte: u32) -> Result<u32, NoAnswer> {
    if byte < 0x100 {
        Ok(sign8(byte as u8))
    } else {
        Err(NoAnswer::NoCase)
    }
}

fn extended_half(half: u32) -> Result<u32, NoAnswer> {
    if half < 0x1_0000 {
        Ok(sign16(half as u16))
    } else {
        Err(NoAnswer::NoCase)
    }
}

/// `set LINE SETS`: the set that keeps a line.
fn put_set(words: &[&str], out: &mut Vec<u8>) -> Result<(), NoAnswer> {
    let [line, sets] = *words else {
        return Err(NoAnswer::NoCase);
    };
    let line = word_in(line)?;
    let sets = number_in(65_536, sets)? as u32;
    if sets == 0 {
        return Err(NoAnswer::NoCase);
    }
    put_word(out, "", set_of(line, sets))
}

/// `lane WORD LANE WIDTH`: what a word has from a lane on; `none` where the lane is not aligned.
fn lane(words: &[&str], out: &mut Vec<u8>) -> Result<(), NoAnswer> {
    let [word, lane, width] = *words else {
        return Err(NoAnswer::NoCase);
    };
    put_extracted(word_in(word)?, word_in(lane)?, width_in(width)?, out)
}

/// `merge WORD LANE WIDTH VALUE`: a word with the low bits of a value from a lane on; `none` where the
/// lane is not aligned.
fn merged(words: &[&str], out: &mut Vec<u8>) -> Result<(), NoAnswer> {
    let [word, lane, width, value] = *words else {
        return Err(NoAnswer::NoCase);
    };
    let (word, lane, width) = (word_in(word)?, word_in(lane)?, width_in(width)?);
    put_merged(word, lane, width, word_in(value)?, out)
}

fn put_extracted(word: u32, lane: u32, width: Width, out: &mut Vec<u8>) -> Result<(), NoAnswer> {
    if lane < 4 && aligned(lane, width) {
        put_word(out, "", extract(word, lane, width))
    } else {
        put(out, "none")
    }
}

fn put_merged(
    word: u32,
    lane: u32,
    width: Width,
    value: u32,
    out: &mut Vec<u8>,
) -> Result<(), NoAnswer> {
    if lane < 4 && aligned(lane, width) {
        put_word(out, "", merge(word, lane, width, value))
    } else {
        put(out, "none")
    }
}
