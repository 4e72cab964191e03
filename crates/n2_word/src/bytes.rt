//! Words as bytes, the lowest first, and words in lists of bytes.

ghost use Rattle.std.specs.Prelude.{◌≡◌, take, drop, slice_index};
ghost use Rattle.n2_word.specs.Words as words;

/// The four bytes of a word.
#[inline(always)]
pub fn bytes_of(word: u32) -> [u8; 4]
    ensures { result ≡ words.bytes_of word }
{
    word.to_le_bytes()
}

/// The number that bytes stand for. Of more than four bytes the first four count.
#[inline(always)]
fn number_of(bytes: &[u8]) -> u32
    ensures { result ≡ words.number_of (take 4 bytes.now) }
{
    match bytes {
        [a, b, c, d, ..] => u32::from_le_bytes([*a, *b, *c, *d]),
        [a, b, c] => u32::from_le_bytes([*a, *b, *c, 0]),
        [a, b] => u32::from_le_bytes([*a, *b, 0, 0]),
        [a] => u32::from(*a),
        [] => 0,
    }
}

/// The bytes from a place on; none past the end.
#[inline(always)]
pub fn behind(bytes: &[u8], at: usize) -> &[u8]
    ensures { result.now ≡ drop at bytes.now }
{
    if at < bytes.len() {
        &bytes[at..]
    } else {
        &bytes[bytes.len()..]
    }
}

/// The byte at a place, or 0 past the end.
#[inline(always)]
pub fn byte_at(bytes: &[u8], at: usize) -> u8
    ensures { result ≡ slice_index bytes.now at }
{
    if at < bytes.len() { bytes[at] } else { 0 }
}

/// The word of four bytes at a place, with zeros past the end.
#[inline(always)]
pub fn word_at(bytes: &[u8], at: usize) -> u32
    ensures { result ≡ words.number_of (take 4 (drop at bytes.now)) }
{
    number_of(behind(bytes, at))
}
