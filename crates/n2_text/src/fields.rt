//! Words and numbers as text, written and read.

ghost use Rattle.std.specs.Prelude.{◌≡◌, ◌+◌, ◌-◌, ◌*◌, ◌<◌, ◌^◌, ◌++◌, decimal, IfSome, OnOk, OnErr, length};
ghost use Rattle.n2_text.specs.Fields.{digit_of, word_text, digits_after, at_most, hex_digits_after};
ghost use Rattle.n2_text.specs.Fields as spec;

use itoa::Buffer;
use n2_word::NoMemory;

/// The hexadecimal digit of a number below sixteen, in lower case.
pub fn digit(n: u32) -> u8
    requires { n < 16 }
    ensures { result ≡ digit_of n }
{
    (if n < 10 { 48 + n } else { 87 + n }) as u8
}

/// The eight hexadecimal digits of a word.
#[tactic(auto, unfolding(crate::specs::Fields::word_text))]
pub fn word_digits(word: u32) -> [u8; 8]
    ensures { result ≡ word_text word }
{
    [
        digit(word >> 28),
        digit((word >> 24) & 15),
        digit((word >> 20) & 15),
        digit((word >> 16) & 15),
        digit((word >> 12) & 15),
        digit((word >> 8) & 15),
        digit((word >> 4) & 15),
        digit(word & 15),
    ]
}

/// Appends a text. After want of memory `out` is as it was.
pub fn put_text(out: &mut Vec<u8>, text: &[u8]) -> Result<(), NoMemory>
    ensures ok { OnOk result (out.new.items ≡ out.old.items ++ text.now) }
    ensures err { OnErr result (out.new.items ≡ out.old.items) }
{
    match out.extend_from_slice(text) {
        Ok(()) => Ok(()),
        Err(_) => Err(NoMemory),
    }
}

/// Appends a word as eight digits. After want of memory `out` is as it was.
pub fn put_word(out: &mut Vec<u8>, word: u32) -> Result<(), NoMemory>
    ensures ok { OnOk result (out.new.items ≡ out.old.items ++ word_text word) }
    ensures err { OnErr result (out.new.items ≡ out.old.items) }
{
    put_text(out, &word_digits(word))
}

/// Appends a number in decimal. After want of memory `out` is as it was.
pub fn put_number(out: &mut Vec<u8>, n: u64) -> Result<(), NoMemory>
    ensures ok { OnOk result (out.new.items ≡ out.old.items ++ decimal n) }
    ensures err { OnErr result (out.new.items ≡ out.old.items) }
{
    let mut buffer = Buffer::new();
    put_text(out, buffer.format(n).as_bytes())
}

/// Appends a text and a number in decimal. After want of memory `out` is as it was.
pub fn put_numbered(out: &mut Vec<u8>, text: &[u8], n: u64) -> Result<(), NoMemory>
    ensures ok { OnOk result (out.new.items ≡ out.old.items ++ (text.now ++ decimal n)) }
    ensures err { OnErr result (out.new.items ≡ out.old.items) }
{
    let len = out.len();
    put_text(out, text)?;
    match put_number(out, n) {
        Ok(()) => Ok(()),
        Err(NoMemory) => {
            out.truncate(len);
            Err(NoMemory)
        }
    }
}

/// The number that a hexadecimal digit in lower case stands for.
fn digit_value(c: u8) -> Option<u32>
    ensures value { result ≡ spec.digit_value c }
    ensures small { IfSome result (λ d. d < 16) }
{
    match c {
        b'0'..=b'9' => Some(u32::from(c - b'0')),
        b'a'..=b'f' => Some(u32::from(c - b'a') + 10),
        _ => None,
    }
}

/// The number that eight hexadecimal digits are.
fn hex_digits(text: &[u8]) -> Option<u32>
    requires { length text.now ≡ 8 }
    ensures { result ≡ hex_digits_after 0 text.now }
{
    let mut n = 0u64;
    for c in text {
        n = 16 * n + u64::from(digit_value(*c)?);
    }
    Some(n as u32)
}

/// The word that a text is, in eight hexadecimal digits in lower case; None where it is none.
#[tactic(auto, unfolding(crate::specs::Fields::hex_word))]
pub fn hex_word(text: &[u8]) -> Option<u32>
    ensures { result ≡ spec.hex_word text.now }
{
    if text.len() == 8 {
        hex_digits(text)
    } else {
        None
    }
}

/// A number with one more digit, where it is below 2^64.
fn with_digit(n: u64, digit: u8) -> Option<u64>
    requires { digit < 10 }
    ensures { result ≡ at_most (2 ^ 64 - 1) (Some (10 * n + digit)) }
{
    n.checked_mul(10)?.checked_add(u64::from(digit))
}

/// The number below 2^64 that decimal digits are.
fn decimal_digits(text: &[u8]) -> Option<u64>
    ensures { result ≡ at_most (2 ^ 64 - 1) (digits_after 0 text.now) }
{
    let mut n = 0u64;
    for c in text {
        if !c.is_ascii_digit() {
            return None;
        }
        n = with_digit(n, *c - b'0')?;
    }
    Some(n)
}

/// The number below 2^64 that a text is, in decimal digits without a sign or a leading zero; None
/// where it is none.
pub fn numeral(text: &[u8]) -> Option<u64>
    ensures { result ≡ at_most (2 ^ 64 - 1) (spec.numeral text.now) }
{
    match text {
        [] => None,
        [b'0'] => Some(0),
        [b'0', ..] => None,
        _ => decimal_digits(text),
    }
}

/// The number that a text is, as [`numeral`] reads it, where it is no greater than `most`.
pub fn numeral_up_to(most: u64, text: &[u8]) -> Option<u64>
    ensures { result ≡ at_most most (spec.numeral text.now) }
{
    let n = numeral(text)?;
    if n <= most { Some(n) } else { None }
}
