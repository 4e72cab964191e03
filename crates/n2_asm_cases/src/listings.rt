//! Cases of words as text.

use n2_cases::{NoAnswer, bytes_in, put, word_in};
use n2_dis::{line_text, put_listing};
use n2_elf::{ElfFault, Image};
use n2_text::put_text;
use std::alloc::Global;

/// `dis WORD WORD`: the text of a word that stands at an address, the address first.
pub fn dis(alloc: Global, rest: &str, out: &mut Vec<u8>) -> Result<(), NoAnswer> {
    let (at, word) = rest.split_once(' ').ok_or(NoAnswer::NoCase)?;
    let line = line_text(alloc, word_in(word)?, word_in(at)?)?;
    put(out, line.as_str())
}

/// `list WORD TEXT`: the rows of bytes that lie at an address, with `;` for their line feeds.
pub fn list(alloc: Global, rest: &str, out: &mut Vec<u8>) -> Result<(), NoAnswer> {
    let (at, text) = rest.split_once(' ').ok_or(NoAnswer::NoCase)?;
    let image = raw_image(alloc, &bytes_in(alloc, text)?, word_in(at)?)?;
    let mut rows = Vec::new(alloc);
    put_listing(&mut rows, image.segments.as_slice())?;
    for byte in rows.as_slice() {
        put_text(out, &[if *byte == b'\n' { b';' } else { *byte }])?;
    }
    Ok(())
}

fn raw_image(alloc: Global, file: &[u8], at: u32) -> Result<Image, NoAnswer> {
    if file.len() > 0xffff_ffff {
        return Err(NoAnswer::NoCase);
    }
    match Image::raw(alloc, file, at) {
        Ok(image) => Ok(image),
        Err(ElfFault::NoMemory) => Err(NoAnswer::NoMemory),
        Err(_) => Err(NoAnswer::NoCase),
    }
}
