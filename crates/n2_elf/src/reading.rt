//! The fields of a file, its first fault, and its segments.

ghost use Rattle.std.specs.Prelude.{◌≡◌, ◌<◌, ◌^◌, ◌++◌, IfOk, OnOk, take, drop};
ghost use Rattle.std.specs.Result.{result_err};
ghost use Rattle.n2_text.specs.Firsts as firsts;
ghost use Rattle.n2_elf.specs.Fields as fields;
ghost use Rattle.n2_elf.specs.Reading.{header_fault, programs_fault, count_of, loaded_at, segments_of};
ghost use Rattle.n2_elf.specs.Reading as spec;

use crate::image::{ElfFault, Image, Segment};
use n2_text::Items;
use n2_word::{NoMemory, behind, byte_at, word_at};
use std::alloc::Global;

/// The number that two bytes at an offset are, with zeros past the end.
fn half_at(bytes: &[u8], offset: usize) -> u16
    ensures { result ≡ fields.half_at bytes.now offset }
{
    match behind(bytes, offset) {
        [low, high, ..] => u16::from_le_bytes([*low, *high]),
        [low] => u16::from(*low),
        [] => 0,
    }
}

/// A fault, unless a condition holds.
fn unless(holds: bool, fault: ElfFault) -> Result<(), ElfFault>
    ensures { result_err result ≡ firsts.unless holds fault }
{
    if holds { Ok(()) } else { Err(fault) }
}

/// What is wrong in the file's header.
#[tactic(auto, unfolding(crate::specs::Reading::header_fault))]
pub fn check_header(bytes: &[u8]) -> Result<(), ElfFault>
    ensures { result_err result ≡ header_fault bytes.now }
{
    unless(Image::is_elf(bytes), ElfFault::NotElf)?;
    unless(bytes.len() >= 52, ElfFault::Cut(0))?;
    unless(
        byte_at(bytes, 4) == 1 && byte_at(bytes, 5) == 1,
        ElfFault::WrongClass,
    )?;
    let machine = half_at(bytes, 18);
    unless(machine == 113, ElfFault::WrongMachine(machine))?;
    let kind = half_at(bytes, 16);
    unless(kind == 2, ElfFault::WrongType(kind))?;
    let flags = word_at(bytes, 36);
    unless(flags == 0, ElfFault::Flags(flags))?;
    let entry_size = half_at(bytes, 42);
    let fits = half_at(bytes, 44) == 0 || entry_size == 32;
    unless(fits, ElfFault::EntrySize(entry_size))
}

/// Where program header `i` stands.
fn place_of(bytes: &[u8], i: u16) -> usize
    ensures place { result ≡ spec.place_of bytes.now i }
    ensures small { result < 2 ^ 34 }
{
    word_at(bytes, 28) as usize + 32 * usize::from(i)
}

/// `p_type` of the program header at a place.
fn type_at(bytes: &[u8], place: usize) -> u32
    ensures { result ≡ spec.type_at bytes.now place }
{
    word_at(bytes, place)
}

/// `p_offset` of the program header at a place.
fn offset_at(bytes: &[u8], place: usize) -> u32
    requires { place < 2 ^ 34 }
    ensures { result ≡ spec.offset_at bytes.now place }
{
    word_at(bytes, place + 4)
}

/// `p_paddr` of the program header at a place.
fn paddr_at(bytes: &[u8], place: usize) -> u32
    requires { place < 2 ^ 34 }
    ensures { result ≡ spec.paddr_at bytes.now place }
{
    word_at(bytes, place + 12)
}

/// `p_filesz` of the program header at a place.
fn filesz_at(bytes: &[u8], place: usize) -> u32
    requires { place < 2 ^ 34 }
    ensures { result ≡ spec.filesz_at bytes.now place }
{
    word_at(bytes, place + 16)
}

/// `p_memsz` of the program header at a place.
fn memsz_at(bytes: &[u8], place: usize) -> u32
    requires { place < 2 ^ 34 }
    ensures { result ≡ spec.memsz_at bytes.now place }
{
    word_at(bytes, place + 20)
}

/// `p_flags` of the program header at a place.
fn flags_at(bytes: &[u8], place: usize) -> u32
    requires { place < 2 ^ 34 }
    ensures { result ≡ spec.flags_at bytes.now place }
{
    word_at(bytes, place + 24)
}

/// Whether the program header at a place is of a segment that is loaded.
fn is_loaded(bytes: &[u8], place: usize) -> bool
    requires { place < 2 ^ 34 }
    ensures { result ≡ spec.is_loaded bytes.now place }
{
    type_at(bytes, place) == 1 && memsz_at(bytes, place) != 0
}

/// What is wrong in a segment that is loaded.
fn check_segment(bytes: &[u8], i: u16, place: usize) -> Result<(), ElfFault>
    requires { place < 2 ^ 34 }
    ensures { result_err result ≡ spec.segment_fault bytes.now i place }
{
    let offset = u64::from(offset_at(bytes, place));
    let filesz = filesz_at(bytes, place);
    unless(filesz <= memsz_at(bytes, place), ElfFault::Sizes(i))?;
    unless(
        filesz == 0 || offset + u64::from(filesz) <= bytes.len() as u64,
        ElfFault::Cut(offset),
    )
}

/// What is wrong in program header `i`.
#[tactic(auto, unfolding(crate::specs::Reading::program_fault))]
fn check_program(bytes: &[u8], i: u16) -> Result<(), ElfFault>
    ensures { result_err result ≡ spec.program_fault bytes.now i (spec.place_of bytes.now i) }
{
    let place = place_of(bytes, i);
    if bytes.len() < place + 32 {
        return Err(ElfFault::Cut(place as u64));
    }
    if is_loaded(bytes, place) {
        check_segment(bytes, i, place)
    } else {
        Ok(())
    }
}

/// What is wrong in the program headers.
pub fn check_programs(bytes: &[u8]) -> Result<(), ElfFault>
    ensures { result_err result ≡ programs_fault bytes.now 0 (count_of bytes.now) }
{
    let headers = half_at(bytes, 44);
    for i in 0..headers {
        check_program(bytes, i)?;
    }
    Ok(())
}

/// At most `count` bytes from an offset on.
fn piece(bytes: &[u8], offset: usize, count: usize) -> &[u8]
    ensures { result.now ≡ take count (drop offset bytes.now) }
{
    let rest = behind(bytes, offset);
    if count < rest.len() {
        &rest[..count]
    } else {
        rest
    }
}

/// The segment of the program header at a place.
#[tactic(auto, unfolding(crate::specs::Reading::segment_at))]
fn segment_at(alloc: Global, bytes: &[u8], place: usize) -> Result<Segment, NoMemory>
    requires { place < 2 ^ 34 }
    ensures { IfOk result (λ segment. segment ≡ spec.segment_at bytes.now place) }
{
    let offset = offset_at(bytes, place) as usize;
    let filesz = filesz_at(bytes, place) as usize;
    let flags = flags_at(bytes, place);
    Ok(Segment {
        at: paddr_at(bytes, place),
        bytes: Items::from_slice(alloc, piece(bytes, offset, filesz))?,
        size: memsz_at(bytes, place),
        exec: flags % 2 == 1,
        write: flags / 2 % 2 == 1,
    })
}

/// One more segment, where program header `i` is of one that is loaded.
fn load_one(
    alloc: Global,
    bytes: &[u8],
    i: u16,
    segments: &mut Items<Segment>,
) -> Result<(), NoMemory>
    ensures { OnOk result (segments.new ≡ segments.old ++ loaded_at bytes.now (spec.place_of bytes.now i)) }
{
    let place = place_of(bytes, i);
    if is_loaded(bytes, place) {
        segments.push(segment_at(alloc, bytes, place)?)?;
    }
    Ok(())
}

/// The segments of all program headers.
pub fn load(alloc: Global, bytes: &[u8]) -> Result<Items<Segment>, NoMemory>
    ensures { IfOk result (λ segments. segments ≡ segments_of bytes.now) }
{
    let count = half_at(bytes, 44);
    let mut segments = Items::new(alloc);
    for i in 0..count {
        load_one(alloc, bytes, i, &mut segments)?;
    }
    Ok(segments)
}
