//! Words of 32 bits, the lanes of their bytes, and lines of 32 bytes.
#![tactic(auto)]

ghost use Rattle.std.specs.Prelude.{◌≡◌, ◌<◌, IsTrue};
ghost use Rattle.n2_word.specs.Words.{is_aligned, lane_of, extracted, merged, signed_byte, signed_half, size};
ghost use Rattle.n2_word.specs.Lines.{line, set_for};

mod bytes;
pub mod laws;

pub use bytes::{behind, byte_at, bytes_of, word_at};
use std::alloc::{AllocError, AllocFailed};

/// No memory was left.
#[derive(Clone, Copy, Debug, PartialEq, Eq)]
pub struct NoMemory;

impl From<AllocError> for NoMemory {
    fn from(_refused: AllocError) -> NoMemory {
        NoMemory
    }
}

impl<T: Drop> From<AllocFailed<T>> for NoMemory {
    fn from(_refused: AllocFailed<T>) -> NoMemory {
        NoMemory
    }
}

/// How much an access moves: 1, 2 or 4 bytes.
#[derive(Clone, Copy, Debug, PartialEq, Eq)]
pub enum Width {
    Byte,
    Half,
    Word,
}

/// A byte with its sign extended to 32 bits.
#[inline(always)]
pub fn sign8(byte: u8) -> u32
    ensures { result ≡ signed_byte byte }
{
    let byte = u32::from(byte);
    if byte < 0x80 {
        byte
    } else {
        byte + 0xffff_ff00
    }
}

/// A half with its sign extended to 32 bits.
#[inline(always)]
pub fn sign16(half: u16) -> u32
    ensures { result ≡ signed_half half }
{
    let half = u32::from(half);
    if half < 0x8000 {
        half
    } else {
        half + 0xffff_0000
    }
}

/// The number of the line of 32 bytes that holds an address; bit 31 does not count.
#[inline(always)]
pub fn line_of(address: u32) -> u32
    ensures { result ≡ line address }
{
    (address & 0x7fff_ffff) / 32
}

/// The set of a direct-mapped cache of `sets` sets that keeps a line.
#[inline(always)]
pub fn set_of(line: u32, sets: u32) -> u32
    requires { 0 < sets }
    ensures set { result ≡ set_for line sets }
    ensures below { result < sets }
{
    line % sets
}

/// Whether an address is a multiple of the access's size.
#[inline(always)]
pub fn aligned(address: u32, width: Width) -> bool
    ensures { result ≡ is_aligned address width }
{
    match width {
        Width::Byte => true,
        Width::Half => address % 2 == 0,
        Width::Word => address % 4 == 0,
    }
}

/// The byte, half or word from a lane of a word on, zero-extended. The lane is the address mod 4.
#[inline(always)]
pub fn extract(word: u32, lane: u32, width: Width) -> u32
    requires place { lane < 4 }
    requires aligned { IsTrue (is_aligned lane width) }
    ensures { result ≡ extracted word lane width }
{
    match width {
        Width::Byte => extract_byte(word, lane),
        Width::Half => extract_half(word, lane),
        Width::Word => word,
    }
}

/// A word whose byte, half or word from a lane on is replaced by the low bits of a value.
#[inline(always)]
pub fn merge(word: u32, lane: u32, width: Width, value: u32) -> u32
    requires place { lane < 4 }
    requires aligned { IsTrue (is_aligned lane width) }
    ensures { result ≡ merged word lane width value }
{
    match width {
        Width::Byte => merge_byte(word, lane, value),
        Width::Half => merge_half(word, lane, value),
        Width::Word => value,
    }
}

#[inline(always)]
fn extract_byte(word: u32, lane: u32) -> u32
    requires { lane < 4 }
    ensures { result ≡ extracted word lane Width.Byte }
{
    match lane {
        0 => word & 0xff,
        1 => (word >> 8) & 0xff,
        2 => (word >> 16) & 0xff,
        _ => word >> 24,
    }
}

#[inline(always)]
fn extract_half(word: u32, lane: u32) -> u32
    requires place { lane < 4 }
    requires aligned { IsTrue (is_aligned lane Width.Half) }
    ensures { result ≡ extracted word lane Width.Half }
{
    match lane {
        0 => word & 0xffff,
        _ => word >> 16,
    }
}

#[inline(always)]
fn merge_byte(word: u32, lane: u32, value: u32) -> u32
    requires place { lane < 4 }
    ensures { result ≡ merged word lane Width.Byte value }
{
    let byte = value & 0xff;
    match lane {
        0 => (word >> 8 << 8) + byte,
        1 => (word >> 16 << 16) + (byte << 8) + (word & 0xff),
        2 => (word >> 24 << 24) + (byte << 16) + (word & 0xffff),
        _ => (byte << 24) + (word & 0xff_ffff),
    }
}

#[inline(always)]
fn merge_half(word: u32, lane: u32, value: u32) -> u32
    requires place { lane < 4 }
    requires aligned { IsTrue (is_aligned lane Width.Half) }
    ensures { result ≡ merged word lane Width.Half value }
{
    let half = value & 0xffff;
    match lane {
        0 => (word >> 16 << 16) + half,
        _ => (half << 16) + (word & 0xffff),
    }
}
