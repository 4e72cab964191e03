//! A row of a source, read from the left.

ghost use Rattle.std.specs.Prelude.{◌≡◌, option_map};
ghost use Rattle.n2_source.specs.Cursors as spec;

fn is_blank(c: u8) -> bool
    ensures { result ≡ spec.is_blank c }
{
    c == b' ' || c == b'\t'
}

/// What stands behind the blanks in front.
pub fn skip(bytes: &[u8]) -> &[u8]
    ensures { result.now ≡ spec.skip bytes.now }
{
    for (i, c) in bytes.iter().enumerate() {
        if !is_blank(*c) {
            return &bytes[i..];
        }
    }
    &bytes[bytes.len()..]
}

fn is_letter(c: u8) -> bool
    ensures { result ≡ spec.is_letter c }
{
    c.is_ascii_lowercase() || c.is_ascii_uppercase() || c == b'_'
}

fn is_word(c: u8) -> bool
    ensures { result ≡ spec.is_word c }
{
    is_letter(c) || c.is_ascii_digit()
}

/// The letters, digits and `_` in front, and the rest.
pub fn word_at(bytes: &[u8]) -> (&[u8], &[u8])
    ensures word { result.0.now ≡ (spec.word_at bytes.now).0 }
    ensures rest { result.1.now ≡ (spec.word_at bytes.now).1 }
{
    for (i, c) in bytes.iter().enumerate() {
        if !is_word(*c) {
            return bytes.split_at(i);
        }
    }
    bytes.split_at(bytes.len())
}

/// What stands behind this byte, where it is in front.
pub fn past(mark: u8, bytes: &[u8]) -> Option<&[u8]>
    ensures { option_map (λ x. x.now) result ≡ spec.past mark bytes.now }
{
    match bytes {
        [c, rest @ ..] => { if *c == mark { Some(rest) } else { None } }
        [] => None,
    }
}

/// What stands behind a mark, with blanks on its left.
#[tactic(auto, unfolding(crate::specs::Cursors::mark_at))]
pub fn mark_at(mark: u8, bytes: &[u8]) -> Option<&[u8]>
    ensures { option_map (λ x. x.now) result ≡ spec.mark_at mark bytes.now }
{
    past(mark, skip(bytes))
}

fn is_over(bytes: &[u8]) -> bool
    ensures { result ≡ spec.is_over bytes.now }
{
    match bytes {
        [c, ..] => *c == b'#',
        [] => true,
    }
}

/// Whether nothing is left but blanks and a comment.
pub fn is_end(bytes: &[u8]) -> bool
    ensures { result ≡ spec.is_end bytes.now }
{
    is_over(skip(bytes))
}

/// Whether a blank is in front.
pub fn starts_blank(bytes: &[u8]) -> bool
    ensures { result ≡ spec.starts_blank bytes.now }
{
    match bytes {
        [c, ..] => is_blank(*c),
        [] => false,
    }
}

/// Whether a letter or `_` is in front.
pub fn starts_letter(bytes: &[u8]) -> bool
    ensures { result ≡ spec.starts_letter bytes.now }
{
    match bytes {
        [c, ..] => is_letter(*c),
        [] => false,
    }
}
