//! What a run shows.

use n2_cases::{NoAnswer, put};
use n2_text::put_text;
use std::alloc::Global;

/// The texts of a run.
#[derive(Drop)]
pub struct Texts {
    pub report: Vec<u8>,
    pub flat: Vec<u8>,
    pub journal: Vec<u8>,
}

/// Whether a byte of a row is the one of a prefix, in which `_` stands for a blank.
fn is_byte(byte: u8, prefix: u8) -> bool {
    byte == prefix || (byte == b' ' && prefix == b'_')
}

fn begins_with(row: &[u8], prefix: &[u8]) -> bool {
    if row.len() < prefix.len() {
        return false;
    }
    row.iter()
        .zip(prefix)
        .all(|(byte, prefix)| is_byte(*byte, *prefix))
}

/// Appends the rows of a text that begin with some bytes.
fn put_rows(out: &mut Vec<u8>, text: &[u8], prefix: &str) -> Result<(), NoAnswer> {
    for row in text.split(|byte| *byte == b'\n') {
        if !row.is_empty() && begins_with(row, prefix.as_bytes()) {
            put_text(out, row)?;
            put(out, "\n")?;
        }
    }
    Ok(())
}

fn text_of<'a>(texts: &'a Texts, name: &str) -> Result<&'a [u8], NoAnswer> {
    match name {
        "report" => Ok(&texts.report),
        "flat" => Ok(&texts.flat),
        "journal" => Ok(&texts.journal),
        _ => Err(NoAnswer::NoCase),
    }
}

fn put_show(out: &mut Vec<u8>, texts: &Texts, show: &str) -> Result<(), NoAnswer> {
    match show.split_once(':') {
        Some((name, prefix)) => put_rows(out, text_of(texts, name)?, prefix),
        None => put_rows(out, text_of(texts, show)?, ""),
    }
}

/// Whether a row of a report tells of a run alone, and not of cores, UARTs and the verdict.
fn is_of_run(row: &[u8]) -> bool {
    row.starts_with(b"nios2")
        || row.starts_with(b"end")
        || row.starts_with(b"transfers")
        || row.starts_with(b"memory")
}

/// Appends the rows of a report that tell of cores, UARTs and the verdict.
fn put_flat_part(out: &mut Vec<u8>, text: &[u8]) -> Result<(), NoAnswer> {
    for row in text.split(|byte| *byte == b'\n') {
        if !is_of_run(row) {
            put_text(out, row)?;
            put(out, "\n")?;
        }
    }
    Ok(())
}

fn put_agreement(out: &mut Vec<u8>, flat: &[u8], caching: &[u8]) -> Result<(), NoAnswer> {
    put(
        out,
        if flat == caching {
            "agree\n"
        } else {
            "differ\n"
        },
    )
}

/// Appends what words ask to be shown, and whether both reports have the same flat part.
pub fn put_shows(
    alloc: Global,
    out: &mut Vec<u8>,
    texts: &Texts,
    shows: &[&str],
) -> Result<(), NoAnswer> {
    for show in shows {
        put_show(out, texts, show)?;
    }
    let mut flat = Vec::new(alloc);
    put_flat_part(&mut flat, &texts.flat)?;
    let mut caching = Vec::new(alloc);
    put_flat_part(&mut caching, &texts.report)?;
    put_agreement(out, &flat, &caching)
}
