//! Cases of images.

ghost use Rattle.std.specs.Prelude.{◌≡◌, ◌<◌, ◌^◌, IfOk, length};
ghost use Rattle.n2_elf.specs.Writing.{IsWritable};

use crate::halves;
use n2_cases::{NoAnswer, bytes_in, put, put_byte, put_shown, put_word, word_in};
use n2_elf::{ElfFault, Image, Segment, put_fault};
use n2_text::Items;
use n2_word::NoMemory;
use std::alloc::Global;

/// A case of one of the kinds below.
pub fn answer(alloc: Global, kind: &str, rest: &str, out: &mut Vec<u8>) -> Result<(), NoAnswer> {
    match kind {
        "elf" => elf(alloc, rest, out),
        "raw" => raw(alloc, rest, out),
        "iself" => is_elf(alloc, rest, out),
        _ => written(alloc, rest, out),
    }
}

/// `elf TEXT`: the image of a file, or its first fault.
fn elf(alloc: Global, field: &str, out: &mut Vec<u8>) -> Result<(), NoAnswer> {
    let file = bytes_in(alloc, field)?;
    put_image(&Image::read(alloc, &file), out)
}

/// `raw WORD TEXT`: the image of a file without a header that lies at an address.
fn raw(alloc: Global, rest: &str, out: &mut Vec<u8>) -> Result<(), NoAnswer> {
    let (at, text) = halves(rest, ' ')?;
    put_image(
        &raw_image(alloc, &bytes_in(alloc, text)?, word_in(at)?)?,
        out,
    )
}

fn raw_image(alloc: Global, file: &[u8], at: u32) -> Result<Result<Image, ElfFault>, NoAnswer> {
    if file.len() > 0xffff_ffff {
        return Err(NoAnswer::NoCase);
    }
    Ok(Image::raw(alloc, file, at))
}

/// `iself TEXT`: whether a file begins as ELF files do.
fn is_elf(alloc: Global, field: &str, out: &mut Vec<u8>) -> Result<(), NoAnswer> {
    let file = bytes_in(alloc, field)?;
    put_shown(out, "", &Image::is_elf(&file))
}

/// `written WORD`: the file of an image with that entry, of the segment of eight bytes and behind it
/// one of zeros only, and the image that it is read as.
fn written(alloc: Global, entry: &str, out: &mut Vec<u8>) -> Result<(), NoAnswer> {
    let file = file_of(alloc, word_in(entry)?)?;
    for byte in file.as_slice() {
        put_byte(out, *byte)?;
    }
    put(out, "; ")?;
    put_image(&Image::read(alloc, &file), out)
}

fn file_of(alloc: Global, entry: u32) -> Result<Vec<u8>, NoAnswer> {
    match two(alloc, entry)?.write(alloc) {
        Ok(file) => Ok(file),
        Err(_) => Err(NoAnswer::NoMemory),
    }
}

/// Two instructions: `addi r2, r0, 5` and `break`.
const CODE: [u8; 8] = [0x44, 1, 0x80, 0, 0x3a, 0xa0, 0x3d, 0];

fn code(alloc: Global) -> Result<Segment, NoMemory>
    ensures { IfOk result (λ s. (length s.bytes ≡ 8) × (s.size ≡ 8)) }
{
    Ok(Segment {
        at: 0,
        bytes: Items::from_slice(alloc, &CODE)?,
        size: 8,
        exec: true,
        write: false,
    })
}

#[tactic(auto, unfolding(n2_elf::specs::Writing::contents_len))]
fn two(alloc: Global, entry: u32) -> Result<Image, NoMemory>
    ensures { IfOk result (λ image. IsWritable image) }
{
    let mut segments = Items::new(alloc);
    segments.push(code(alloc)?)?;
    segments.push(Segment {
        at: 0x8000,
        bytes: Items::new(alloc),
        size: 16,
        exec: false,
        write: true,
    })?;
    Ok(Image { entry, segments })
}

/// Appends the entry of an image and its segments, or the fault of its file.
fn put_image(image: &Result<Image, ElfFault>, out: &mut Vec<u8>) -> Result<(), NoAnswer> {
    match image {
        Ok(image) => {
            put_word(out, "entry ", image.entry)?;
            for segment in image.segments.as_slice() {
                put_segment(segment, out)?;
            }
            Ok(())
        }
        Err(ElfFault::NoMemory) => Err(NoAnswer::NoMemory),
        Err(fault) => Ok(put_fault(out, fault)?),
    }
}

/// Appends a segment, with its first eight bytes.
fn put_segment(segment: &Segment, out: &mut Vec<u8>) -> Result<(), NoAnswer> {
    put_word(out, "; at ", segment.at)?;
    put_word(out, " size ", segment.size)?;
    put_shown(out, " exec ", &segment.exec)?;
    put_shown(out, " write ", &segment.write)?;
    put_bytes(segment.bytes.as_slice(), out)
}

/// Appends how many bytes there are, and the first eight of them.
fn put_bytes(bytes: &[u8], out: &mut Vec<u8>) -> Result<(), NoAnswer> {
    put_shown(out, " bytes ", &bytes.len())?;
    put(out, ":")?;
    for byte in &bytes[..bytes.len().min(8)] {
        put_byte(out, *byte)?;
    }
    Ok(())
}
