//! Numbers, registers and names of a source.

ghost use Rattle.std.specs.Prelude.{◌≡◌, ◌<◌, ◌≤◌, ◌^◌, ◌*◌, ◌+◌, Some, option_map, IfSome, min};
ghost use Rattle.n2_text.specs.Fields.{numeral as numeral_of, digits_after, hex_digits_after, digit_value as digit_value_of, is_digit as is_digit_of};
ghost use Rattle.n2_source.specs.Numbers as spec;

use crate::cursors::{past, skip, starts_letter, word_at};
use n2_text::numeral_up_to;
use std::marker::Model;
use std::str;

/// Above this a number fits no field.
const MOST: u64 = 1 << 40;

/// A number with its sign. There is no negative zero, and a size above 2^40 stands as 2^40.
#[derive(Clone, Copy, Debug, PartialEq, Eq)]
pub struct Number {
    pub negative: bool,
    pub size: u64,
}

/// A name, by its bytes.
#[derive(Debug, Drop)]
pub struct Name<'a> {
    text: &'a str,
}

impl<'a> Model for Name<'a> {
    ghost use Rattle.std.specs.Prelude.{List, ℕ};

    ghost Value = { List ℕ };

    ghost view = { λ n. n.text.now };
}

impl<'a> Name<'a> {
    /// The name.
    pub fn as_str(&self) -> &'a str
        ensures { result.now ≡ self.now }
    {
        self.text
    }
}

/// The less of a number and 2^40.
pub fn capped(n: u64) -> u64
    ensures value { result ≡ spec.capped n }
    ensures small { result ≤ 2 ^ 40 }
{
    if n < MOST { n } else { MOST }
}

fn is_digit(c: u8) -> bool
    ensures { result ≡ is_digit_of c }
{
    c.is_ascii_digit()
}

/// The number that decimal digits are, or 2^40.
fn decimal_digits(word: &[u8]) -> Option<u64>
    ensures { result ≡ option_map spec.capped (digits_after 0 word.now) }
{
    let mut n = 0;
    for c in word {
        if !is_digit(*c) {
            return None;
        }
        n = capped(10 * n + u64::from(*c - b'0'));
    }
    Some(n)
}

/// The number that decimal digits without a leading zero are.
fn decimal(word: &[u8]) -> Option<u64>
    ensures { result ≡ option_map spec.capped (numeral_of word.now) }
{
    match word {
        [] => None,
        [b'0'] => Some(0),
        [b'0', ..] => None,
        _ => decimal_digits(word),
    }
}

/// A hexadecimal digit in lower case.
fn lowered(c: u8) -> u8
    ensures { result ≡ spec.lowered c }
{
    if c >= b'A' && c <= b'F' { c + 32 } else { c }
}

/// The number that a hexadecimal digit in lower case stands for.
fn digit_value(c: u8) -> Option<u64>
    ensures value { result ≡ digit_value_of c }
    ensures small { IfSome result (λ d. d < 16) }
{
    match c {
        b'0'..=b'9' => Some(u64::from(c - b'0')),
        b'a'..=b'f' => Some(u64::from(c - b'a') + 10),
        _ => None,
    }
}

/// The number that hexadecimal digits of either case are, or 2^40.
fn hexadecimal(word: &[u8]) -> Option<u64>
    ensures { result ≡ option_map spec.capped (spec.hex_numeral word.now) }
{
    if word.is_empty() {
        return None;
    }
    let mut n = 0;
    for c in word {
        n = capped(16 * n + digit_value(lowered(*c))?);
    }
    Some(n)
}

/// What stands behind `0x`.
fn past_0x(word: &[u8]) -> Option<&[u8]>
    ensures { option_map (λ x. x.now) result ≡ spec.past_0x word.now }
{
    past(b'x', past(b'0', word)?)
}

/// The size of a number.
#[tactic(auto, unfolding(crate::specs::Numbers::size_of))]
fn size(word: &[u8]) -> Option<u64>
    ensures { result ≡ spec.size_of word.now }
{
    match past_0x(word) {
        Some(digits) => hexadecimal(digits),
        None => decimal(word),
    }
}

/// The number of digits behind a minus.
#[tactic(auto, unfolding(crate::specs::Numbers::negative_at))]
fn negative_at(bytes: &[u8]) -> Option<(Number, &[u8])>
    ensures { option_map (λ x. (x.0, x.1.now)) result ≡ spec.negative_at bytes.now }
{
    let (word, rest) = word_at(bytes);
    let size = size(word)?;
    let negative = size != 0;
    Some((Number { negative, size }, rest))
}

/// The number of digits without a sign.
#[tactic(auto, unfolding(crate::specs::Numbers::plain_at))]
fn plain_at(bytes: &[u8]) -> Option<(Number, &[u8])>
    ensures { option_map (λ x. (x.0, x.1.now)) result ≡ spec.plain_at bytes.now }
{
    let (word, rest) = word_at(bytes);
    let size = size(word)?;
    let negative = false;
    Some((Number { negative, size }, rest))
}

/// A number and what stands behind it.
#[tactic(auto, unfolding(crate::specs::Numbers::number_at))]
pub fn number_at(bytes: &[u8]) -> Option<(Number, &[u8])>
    ensures { option_map (λ x. (x.0, x.1.now)) result ≡ spec.number_at bytes.now }
{
    let start = skip(bytes);
    match past(b'-', start) {
        Some(digits) => negative_at(digits),
        None => plain_at(start),
    }
}

/// The number of a register that digits are.
fn below_32(digits: &[u8]) -> Option<u8>
    ensures value { result ≡ spec.below_32 (numeral_of digits.now) }
    ensures small { IfSome result (λ n. n < 32) }
{
    match numeral_up_to(31, digits) {
        Some(n) => Some(n as u8),
        None => None,
    }
}

/// The number of a register.
#[tactic(auto, unfolding(crate::specs::Numbers::register_of))]
fn register(word: &[u8]) -> Option<u8>
    ensures value { result ≡ spec.register_of word.now }
    ensures small { IfSome result (λ n. n < 32) }
{
    below_32(past(b'r', word)?)
}

/// What stands behind `ctl`.
fn past_ctl(word: &[u8]) -> Option<&[u8]>
    ensures { option_map (λ x. x.now) result ≡ spec.past_ctl word.now }
{
    past(b'l', past(b't', past(b'c', word)?)?)
}

/// The number of a control register.
#[tactic(auto, unfolding(crate::specs::Numbers::control_of))]
fn control(word: &[u8]) -> Option<u8>
    ensures value { result ≡ spec.control_of word.now }
    ensures small { IfSome result (λ n. n < 32) }
{
    below_32(past_ctl(word)?)
}

/// A register and what stands behind it.
#[tactic(auto, unfolding(crate::specs::Numbers::register_at))]
pub fn register_at(bytes: &[u8]) -> Option<(u8, &[u8])>
    ensures value { option_map (λ x. (x.0, x.1.now)) result ≡ spec.register_at bytes.now }
    ensures small { IfSome result (λ x. x.0 < 32) }
{
    let (word, rest) = word_at(skip(bytes));
    let r = register(word)?;
    Some((r, rest))
}

/// A control register and what stands behind it.
#[tactic(auto, unfolding(crate::specs::Numbers::control_at))]
pub fn control_at(bytes: &[u8]) -> Option<(u8, &[u8])>
    ensures value { option_map (λ x. (x.0, x.1.now)) result ≡ spec.control_at bytes.now }
    ensures small { IfSome result (λ x. x.0 < 32) }
{
    let (word, rest) = word_at(skip(bytes));
    let n = control(word)?;
    Some((n, rest))
}

/// Whether a word is a name.
#[tactic(auto, unfolding(crate::specs::Numbers::is_name))]
fn is_name(word: &[u8]) -> bool
    ensures { result ≡ spec.is_name word.now }
{
    starts_letter(word) && !(register(word).is_some() || control(word).is_some())
}

/// A name and what stands behind it.
#[tactic(auto, unfolding(crate::specs::Numbers::name_at))]
pub fn name_at(bytes: &[u8]) -> Option<(Name<'_>, &[u8])>
    ensures { option_map (λ x. (x.0, x.1.now)) result ≡ spec.name_at bytes.now }
{
    let (word, rest) = word_at(skip(bytes));
    if is_name(word) {
        match str::from_utf8(word) {
            Ok(text) => Some((Name { text }, rest)),
            Err(_) => None,
        }
    } else {
        None
    }
}
