//! Lists of numbers and texts in quotes.

ghost use Rattle.std.specs.Prelude.{position, IfSome, true, false, ◌==◌, ◌≡◌, [], ◌∷◌, ◌++◌, ◌+◌, ◌<◌, ◌≤◌, ◌^◌, length, option_map, IsTrue, OnOk};
ghost use Rattle.std.specs.List.{list_all};
ghost use Rattle.n2_source.specs.Lists as spec;

use crate::cursors::{is_end, mark_at};
use crate::numbers::{Number, number_at};
use n2_text::{Items, put_text};
use n2_word::{NoMemory, bytes_of};
use std::marker::Model;

/// A list of numbers as it stands in a source.
#[derive(Debug, Drop)]
pub struct Numbers<'a> {
    text: &'a [u8],
}

impl<'a> Model for Numbers<'a> {
    ghost use Rattle.std.specs.Prelude.{List};
    ghost use Rattle.n2_source.specs.declared.numbers.Number.{Number};

    ghost Value = { List Number };

    ghost use Rattle.n2_source.specs.Lists.{numbers_in};

    ghost view = { λ n. numbers_in n.text.now };
}

/// Whether a text is a list of numbers.
#[tactic(auto, unfolding(crate::specs::Lists::is_list), using(crate::proofs::ListSteps::list_step, crate::proofs::ListSteps::list_none))]
fn is_list(bytes: &[u8]) -> bool
    ensures { result ≡ spec.is_list bytes.now }
{
    let mut rest = bytes;
    for _i in 0..bytes.len() {
        let Some((_, behind)) = number_at(rest) else {
            return false;
        };
        match mark_at(b',', behind) {
            Some(next) => rest = next,
            None => return is_end(behind),
        }
    }
    false
}

/// How many numbers a list has.
#[tactic(auto, unfolding(crate::specs::Lists::numbers_in), using(crate::proofs::ListSteps::numbers_step, crate::proofs::ListSteps::numbers_none))]
fn count(bytes: &[u8]) -> u64
    ensures { result ≡ length (spec.numbers_in bytes.now) }
{
    let mut rest = bytes;
    let mut n = 0;
    for _i in 0..bytes.len() {
        let Some((_, behind)) = number_at(rest) else {
            return n;
        };
        n += 1;
        match mark_at(b',', behind) {
            Some(next) => rest = next,
            None => return n,
        }
    }
    n
}

/// Whether a number is from -2^31 to 2^32 - 1.
pub fn fits_word(n: Number) -> bool
    ensures { result ≡ spec.fits_word n }
{
    if n.negative {
        n.size <= 1 << 31
    } else {
        n.size < 1 << 32
    }
}

/// A number mod 2^32.
pub fn word_of_number(n: Number) -> u32
    ensures { result ≡ spec.word_of_number n }
{
    let low = (n.size % (1 << 32)) as u32;
    if n.negative {
        0u32.wrapping_sub(low)
    } else {
        low
    }
}

/// Whether a number is from -128 to 255.
fn fits_byte(n: Number) -> bool
    ensures { result ≡ spec.fits_byte n }
{
    if n.negative {
        n.size <= 128
    } else {
        n.size < 256
    }
}

/// A number mod 256.
fn byte_of_number(n: Number) -> u8
    ensures { result ≡ spec.byte_of_number n }
{
    let low = (n.size % 256) as u8;
    if n.negative {
        0u8.wrapping_sub(low)
    } else {
        low
    }
}

/// Whether all numbers of a list are words.
#[tactic(auto, unfolding(crate::specs::Lists::numbers_in), using(crate::proofs::ListSteps::numbers_step, crate::proofs::ListSteps::numbers_none))]
fn all_words(bytes: &[u8]) -> bool
    ensures { result ≡ list_all spec.fits_word (spec.numbers_in bytes.now) }
{
    let mut rest = bytes;
    for _i in 0..bytes.len() {
        let Some((n, behind)) = number_at(rest) else {
            return true;
        };
        if !fits_word(n) {
            return false;
        }
        match mark_at(b',', behind) {
            Some(next) => rest = next,
            None => return true,
        }
    }
    true
}

/// Whether all numbers of a list are bytes.
#[tactic(auto, unfolding(crate::specs::Lists::numbers_in), using(crate::proofs::ListSteps::numbers_step, crate::proofs::ListSteps::numbers_none))]
fn all_bytes(bytes: &[u8]) -> bool
    ensures { result ≡ list_all spec.fits_byte (spec.numbers_in bytes.now) }
{
    let mut rest = bytes;
    for _i in 0..bytes.len() {
        let Some((n, behind)) = number_at(rest) else {
            return true;
        };
        if !fits_byte(n) {
            return false;
        }
        match mark_at(b',', behind) {
            Some(next) => rest = next,
            None => return true,
        }
    }
    true
}

/// Appends the words of a list.
#[tactic(auto, unfolding(crate::specs::Lists::numbers_in), using(crate::proofs::ListSteps::numbers_step, crate::proofs::ListSteps::numbers_none))]
fn put_words(out: &mut Vec<u8>, bytes: &[u8]) -> Result<(), NoMemory>
    ensures { OnOk result (out.new.items ≡ out.old.items ++ spec.words_bytes (spec.numbers_in bytes.now)) }
{
    let mut rest = bytes;
    for _i in 0..bytes.len() {
        let Some((n, behind)) = number_at(rest) else {
            return Ok(());
        };
        put_text(out, &bytes_of(word_of_number(n)))?;
        match mark_at(b',', behind) {
            Some(next) => rest = next,
            None => return Ok(()),
        }
    }
    Ok(())
}

fn put_byte(out: &mut Vec<u8>, byte: u8) -> Result<(), NoMemory>
    ensures { OnOk result (out.new.items ≡ out.old.items ++ byte ∷ []) }
{
    match out.push(byte) {
        Ok(()) => Ok(()),
        Err(_) => Err(NoMemory),
    }
}

/// Appends the bytes of a list.
#[tactic(auto, unfolding(crate::specs::Lists::numbers_in), using(crate::proofs::ListSteps::numbers_step, crate::proofs::ListSteps::numbers_none))]
fn put_bytes(out: &mut Vec<u8>, bytes: &[u8]) -> Result<(), NoMemory>
    ensures { OnOk result (out.new.items ≡ out.old.items ++ spec.bytes_bytes (spec.numbers_in bytes.now)) }
{
    let mut rest = bytes;
    for _i in 0..bytes.len() {
        let Some((n, behind)) = number_at(rest) else {
            return Ok(());
        };
        put_byte(out, byte_of_number(n))?;
        match mark_at(b',', behind) {
            Some(next) => rest = next,
            None => return Ok(()),
        }
    }
    Ok(())
}

impl<'a> Numbers<'a> {
    /// The list that a text is, where it is one.
    #[tactic(auto, unfolding(crate::specs::Lists::list_of))]
    pub fn read(bytes: &'a [u8]) -> Option<Numbers<'a>>
        ensures { result ≡ spec.list_of bytes.now }
    {
        if is_list(bytes) {
            Some(Numbers { text: bytes })
        } else {
            None
        }
    }

    /// How many numbers there are.
    pub fn count(&self) -> u64
        ensures { result ≡ length self.now }
    {
        count(self.text)
    }

    /// Whether each is from -2^31 to 2^32 - 1.
    pub fn all_words(&self) -> bool
        ensures { result ≡ list_all spec.fits_word self.now }
    {
        all_words(self.text)
    }

    /// Whether each is from -128 to 255.
    pub fn all_bytes(&self) -> bool
        ensures { result ≡ list_all spec.fits_byte self.now }
    {
        all_bytes(self.text)
    }

    /// Appends each as a word.
    pub fn put_words(&self, out: &mut Vec<u8>) -> Result<(), NoMemory>
        ensures { OnOk result (out.new.items ≡ out.old.items ++ spec.words_bytes self.now) }
    {
        put_words(out, self.text)
    }

    /// Appends each as a byte.
    pub fn put_bytes(&self, out: &mut Vec<u8>) -> Result<(), NoMemory>
        ensures { OnOk result (out.new.items ≡ out.old.items ++ spec.bytes_bytes self.now) }
    {
        put_bytes(out, self.text)
    }
}

/// Where the first quote is.
fn quote_position(bytes: &[u8]) -> Option<usize>
    ensures value { result ≡ position (λ c. c == 34) bytes.now }
    ensures within { IfSome result (λ i. i < length bytes.now) }
{
    bytes.iter().position(|c| *c == b'"')
}

/// What stands before a closing quote, and behind it.
#[tactic(auto, unfolding(crate::specs::Lists::quote_at))]
fn quote_at(bytes: &[u8]) -> Option<(&[u8], &[u8])>
    ensures { option_map (λ x. (x.0.now, x.1.now)) result ≡ spec.quote_at bytes.now }
{
    let i = quote_position(bytes)?;
    Some((&bytes[..i], &bytes[i + 1..]))
}

/// Whether `n` stands behind each backslash.
fn is_escaped(bytes: &[u8]) -> bool
    ensures { result ≡ spec.is_escaped false bytes.now }
{
    let mut escape = false;
    for c in bytes {
        if escape {
            if *c != b'n' {
                return false;
            }
            escape = false;
        } else {
            escape = *c == b'\\';
        }
    }
    !escape
}

/// How many bytes a text has.
#[tactic(auto, using(crate::proofs::ListSteps::text_left))]
fn text_len(bytes: &[u8]) -> u64
    ensures { result ≡ length (spec.unescaped false bytes.now) }
{
    let mut escape = false;
    let mut n = 0;
    for c in bytes {
        if escape {
            escape = false;
            n += 1;
            continue;
        }
        if *c == b'\\' {
            escape = true;
            continue;
        }
        n += 1;
    }
    n
}

/// Appends a text.
#[tactic(auto, using(crate::proofs::ListSteps::text_escape))]
fn put_unescaped(out: &mut Vec<u8>, bytes: &[u8]) -> Result<(), NoMemory>
    ensures { OnOk result (out.new.items ≡ out.old.items ++ spec.unescaped false bytes.now) }
{
    let mut escape = false;
    for c in bytes {
        if escape {
            escape = false;
            put_byte(out, b'\n')?;
            continue;
        }
        if *c == b'\\' {
            escape = true;
            continue;
        }
        put_byte(out, *c)?;
    }
    Ok(())
}

/// A text in quotes as it stands in a source.
#[derive(Debug, Drop)]
pub struct Quoted<'a> {
    text: &'a [u8],
}

impl<'a> Model for Quoted<'a> {
    ghost use Rattle.std.specs.Prelude.{List, ℕ, false};

    ghost Value = { List ℕ };

    ghost use Rattle.n2_source.specs.Lists.{unescaped};

    ghost view = { λ q. unescaped false q.text.now };
}

/// A text in quotes and what stands behind it.
#[tactic(auto, unfolding(crate::specs::Lists::quoted_at))]
pub fn quoted_at(bytes: &[u8]) -> Option<(Quoted<'_>, &[u8])>
    ensures { option_map (λ x. (x.0, x.1.now)) result ≡ spec.quoted_at bytes.now }
{
    let (text, rest) = quote_at(mark_at(b'"', bytes)?)?;
    if is_escaped(text) {
        Some((Quoted { text }, rest))
    } else {
        None
    }
}

impl<'a> Quoted<'a> {
    /// How many bytes the text has.
    pub fn len(&self) -> u64
        ensures { result ≡ length self.now }
    {
        text_len(self.text)
    }

    /// Appends the text.
    pub fn put(&self, out: &mut Vec<u8>) -> Result<(), NoMemory>
        ensures { OnOk result (out.new.items ≡ out.old.items ++ self.now) }
    {
        put_unescaped(out, self.text)
    }

    /// Appends the text and a zero.
    pub fn put_closed(&self, out: &mut Vec<u8>) -> Result<(), NoMemory>
        ensures { OnOk result (out.new.items ≡ out.old.items ++ (self.now ++ 0 ∷ [])) }
    {
        self.put(out)?;
        put_byte(out, 0)
    }
}
