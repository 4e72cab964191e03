//! The fields of a row, read one after the other.

ghost use Rattle.std.specs.Prelude.{◌≡◌, ◌<◌, ◌≤◌, [], ◌∷◌, length, IfSome, IfNone, option_map};
ghost use Rattle.n2_journal.specs.Cursors as spec;
ghost use Rattle.n2_journal.specs.Cursors.{parts_of, fields_of, next_field, next_word, next_number, next_bit, next_width, next_line};

use n2_text::{hex_word, numeral_up_to};
use n2_word::Width;
use std::marker::Model;

/// The text in front of the first byte of this kind, and what stands behind that byte.
#[inline(always)]
pub fn first_part(separator: u8, text: &[u8]) -> Option<(&[u8], &[u8])>
    ensures none { IfNone result (parts_of separator text.now ≡ text.now ∷ []) }
    ensures some { IfSome result (λ x. parts_of separator text.now ≡ x.0.now ∷ parts_of separator x.1.now) }
    ensures shorter { IfSome result (λ x. length x.1.now < length text.now) }
{
    for (at, c) in text.iter().enumerate() {
        if *c == separator {
            return Some((&text[..at], &text[at + 1..]));
        }
    }
    None
}

/// The fields of a row that are left, with one space between each two.
#[derive(Drop)]
pub struct Fields<'a> {
    rest: Option<&'a [u8]>,
}

impl<'a> Model for Fields<'a> {
    ghost use Rattle.std.specs.Prelude.{List, ℕ, []};
    ghost use Rattle.std.specs.Option.{option_map_or};
    ghost use Rattle.n2_journal.specs.Cursors.{fields_of};

    ghost Value = { List (List ℕ) };

    ghost view = { λ f. option_map_or (λ rest. fields_of rest.now) f.rest [] };
}

impl<'a> Fields<'a> {
    /// All fields of a row.
    #[inline(always)]
    pub fn new(row: &'a [u8]) -> Fields<'a>
        ensures { result ≡ fields_of row.now }
    {
        Fields { rest: Some(row) }
    }

    #[tactic(auto, using(crate::proofs::Steps::part_is_there))]
    #[inline(always)]
    pub fn is_empty(&self) -> bool
        ensures { result ≡ spec.is_empty self.now }
    {
        match self.rest {
            Some(_) => false,
            None => true,
        }
    }

    /// The next field, and those behind it.
    #[inline(always)]
    pub fn field(self) -> Option<(&'a [u8], Fields<'a>)>
        ensures { option_map (λ x. (x.0.now, x.1)) result ≡ next_field self.entry }
    {
        let Fields { rest } = self;
        let text = rest?;
        match first_part(b' ', text) {
            Some((field, behind)) => Some((field, Fields { rest: Some(behind) })),
            None => Some((text, Fields { rest: None })),
        }
    }

    /// A word.
    #[inline(always)]
    pub fn word(self) -> Option<(u32, Fields<'a>)>
        ensures { result ≡ next_word self.entry }
    {
        let (field, fields) = self.field()?;
        let word = hex_word(field)?;
        Some((word, fields))
    }

    /// A number that is no greater than `most`.
    #[tactic(auto, using(crate::proofs::Steps::at_most_small))]
    #[inline(always)]
    pub fn number(self, most: u64) -> Option<(u64, Fields<'a>)>
        ensures value { result ≡ next_number most self.entry }
        ensures small { IfSome result (λ x. x.0 ≤ most) }
    {
        let (field, fields) = self.field()?;
        let n = numeral_up_to(most, field)?;
        Some((n, fields))
    }

    /// 0 or 1.
    #[inline(always)]
    pub fn bit(self) -> Option<(bool, Fields<'a>)>
        ensures { result ≡ next_bit self.entry }
    {
        let (field, fields) = self.field()?;
        let bit = bit_of(field)?;
        Some((bit, fields))
    }

    /// How many bytes an access has.
    #[inline(always)]
    pub fn width(self) -> Option<(Width, Fields<'a>)>
        ensures { result ≡ next_width self.entry }
    {
        let (field, fields) = self.field()?;
        let width = width_of(field)?;
        Some((width, fields))
    }

    /// The eight words of a line.
    #[tactic(auto, unfolding(crate::specs::Cursors::next_line))]
    #[inline(always)]
    pub fn line(self) -> Option<([u32; 8], Fields<'a>)>
        ensures { result ≡ next_line self.entry }
    {
        let (a, fields) = self.word()?;
        let (b, fields) = fields.word()?;
        let (c, fields) = fields.word()?;
        let (d, fields) = fields.word()?;
        let (e, fields) = fields.word()?;
        let (f, fields) = fields.word()?;
        let (g, fields) = fields.word()?;
        let (h, fields) = fields.word()?;
        Some(([a, b, c, d, e, f, g, h], fields))
    }
}

#[inline(always)]
fn bit_of(field: &[u8]) -> Option<bool>
    ensures { result ≡ spec.bit_of field.now }
{
    match field {
        [b'0'] => Some(false),
        [b'1'] => Some(true),
        _ => None,
    }
}

#[inline(always)]
fn width_of(field: &[u8]) -> Option<Width>
    ensures { result ≡ spec.width_of field.now }
{
    match field {
        [b'1'] => Some(Width::Byte),
        [b'2'] => Some(Width::Half),
        [b'4'] => Some(Width::Word),
        _ => None,
    }
}
