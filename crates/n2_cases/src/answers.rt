//! What answers are made of. These calls say nothing of what they append, so that those who make many of
//! them carry nothing along.

use crate::NoAnswer;
use n2_text::digit;
use std::fmt::Debug;
use std::io::Write;

/// Appends a text.
pub fn put(out: &mut Vec<u8>, text: &str) -> Result<(), NoAnswer> {
    Ok(n2_text::put_text(out, text.as_bytes())?)
}

/// Appends a text and a word as eight digits.
pub fn put_word(out: &mut Vec<u8>, text: &str, word: u32) -> Result<(), NoAnswer> {
    put(out, text)?;
    Ok(n2_text::put_word(out, word)?)
}

/// Appends a blank and a byte as two hexadecimal digits.
pub fn put_byte(out: &mut Vec<u8>, byte: u8) -> Result<(), NoAnswer> {
    let byte = u32::from(byte);
    Ok(n2_text::put_text(out, &[b' ', digit(byte >> 4), digit(byte & 15)])?)
}

/// Appends a text and a value as it is shown for debugging, a number in decimal.
pub fn put_shown<T: Debug>(out: &mut Vec<u8>, text: &str, value: &T) -> Result<(), NoAnswer> {
    match write!(out, "{text}{value:?}") {
        Ok(()) => Ok(()),
        Err(_) => Err(NoAnswer::NoMemory),
    }
}
