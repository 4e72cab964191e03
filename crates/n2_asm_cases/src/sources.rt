//! Cases of sources.

use n2_asm::{AsmFault, Object, assemble, put_fault};
use n2_cases::{NoAnswer, bytes_in, number_in, put, put_byte, put_shown, put_word};
use std::alloc::Global;

/// `asm TEXT`: all bytes of the segments of a source, or its first fault.
pub fn asm(alloc: Global, field: &str, out: &mut Vec<u8>) -> Result<(), NoAnswer> {
    let source = bytes_in(alloc, field)?;
    match assemble(alloc, &source) {
        Ok(object) => put_bytes(&object, out),
        Err(fault) => put_why(fault, out),
    }
}

fn put_bytes(object: &Object, out: &mut Vec<u8>) -> Result<(), NoAnswer> {
    put(out, "bytes")?;
    for segment in object.image.segments.as_slice() {
        for byte in segment.bytes.as_slice() {
            put_byte(out, *byte)?;
        }
    }
    Ok(())
}

fn put_why(fault: AsmFault, out: &mut Vec<u8>) -> Result<(), NoAnswer> {
    match fault {
        AsmFault::Row { row, kind } => Ok(put_fault(out, row, kind)?),
        AsmFault::NoMemory => Err(NoAnswer::NoMemory),
    }
}

/// `image TEXT`: the entry of a source's image, and each segment by its address, its length and what it
/// may be used for; or its first fault.
pub fn image(alloc: Global, field: &str, out: &mut Vec<u8>) -> Result<(), NoAnswer> {
    let source = bytes_in(alloc, field)?;
    match assemble(alloc, &source) {
        Ok(object) => put_image(&object, out),
        Err(fault) => put_why(fault, out),
    }
}

fn put_image(object: &Object, out: &mut Vec<u8>) -> Result<(), NoAnswer> {
    put_word(out, "entry ", object.image.entry)?;
    for segment in object.image.segments.as_slice() {
        put_word(out, "; at ", segment.at)?;
        put_shown(out, " bytes ", &segment.bytes.len())?;
        put_shown(out, " size ", &segment.size)?;
        put_shown(out, " exec ", &segment.exec)?;
        put_shown(out, " write ", &segment.write)?;
    }
    Ok(())
}

/// `label NAME TEXT`: the address of a label of a source, or its first fault.
pub fn label(alloc: Global, rest: &str, out: &mut Vec<u8>) -> Result<(), NoAnswer> {
    let (name, field) = rest.split_once(' ').ok_or(NoAnswer::NoCase)?;
    let source = bytes_in(alloc, field)?;
    match assemble(alloc, &source) {
        Ok(object) => put_label(&object, name, out),
        Err(fault) => put_why(fault, out),
    }
}

fn put_label(object: &Object, name: &str, out: &mut Vec<u8>) -> Result<(), NoAnswer> {
    match object.labels.get(name) {
        Some(at) => put_word(out, "", *at),
        None => put(out, "none"),
    }
}

/// `many N`: the image of a source of N labels, each before a branch to the label before it.
pub fn many(alloc: Global, field: &str, out: &mut Vec<u8>) -> Result<(), NoAnswer> {
    let n = number_in(100_000, field)?;
    let mut source = Vec::new(alloc);
    put(&mut source, ".text 0\nl0: nop\n")?;
    for i in 1..=n {
        put_shown(&mut source, "l", &i)?;
        put_shown(&mut source, ": br l", &(i - 1))?;
        put(&mut source, "\n")?;
    }
    match assemble(alloc, &source) {
        Ok(object) => put_image(&object, out),
        Err(fault) => put_why(fault, out),
    }
}
