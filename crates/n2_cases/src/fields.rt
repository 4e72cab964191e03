//! The fields of rows.

ghost use Rattle.std.specs.Prelude.{◌≤◌, IfOk};

use crate::NoAnswer;
use n2_text::{hex_word, numeral_up_to};
use n2_word::Width;
use std::alloc::{AllocError, Global};

/// The words of a row, between blanks.
pub fn words_of<'a>(alloc: Global, row: &'a str) -> Result<Vec<&'a str>, AllocError> {
    row.split_whitespace().collect(alloc)
}

/// The bytes of a text.
pub fn bytes_in(alloc: Global, text: &str) -> Result<Vec<u8>, NoAnswer> {
    match quoted(text) {
        Some(inner) => Ok(inner.bytes().map(unquoted).collect(alloc)?),
        None => Ok(hex::decode(alloc, text)?),
    }
}

fn quoted(text: &str) -> Option<&str> {
    text.strip_prefix('"')?.strip_suffix('"')
}

fn unquoted(byte: u8) -> u8 {
    if byte == b';' { b'\n' } else { byte }
}

/// The word of eight hexadecimal digits.
pub fn word_in(text: &str) -> Result<u32, NoAnswer> {
    hex_word(text.as_bytes()).ok_or(NoAnswer::NoCase)
}

/// A decimal number that is no greater than `most`.
pub fn number_in(most: u64, text: &str) -> Result<u64, NoAnswer>
    ensures { IfOk result (λ n. n ≤ most) }
{
    match numeral_up_to(most, text.as_bytes()) {
        Some(n) => Ok(n),
        None => Err(NoAnswer::NoCase),
    }
}

/// The width of a word.
pub fn width_in(text: &str) -> Result<Width, NoAnswer> {
    match text.as_bytes() {
        b"byte" => Ok(Width::Byte),
        b"half" => Ok(Width::Half),
        b"word" => Ok(Width::Word),
        _ => Err(NoAnswer::NoCase),
    }
}
