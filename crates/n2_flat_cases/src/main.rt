//! The program `n2_flat_cases`: cases of the flat machine, a row of standard input each, are answered
//! by `n2_flat`. `n2_cases` says how rows are written. The images of a case are words, or sources with the
//! routines of `n2_hal` behind them, or those of a workload of `n2_make`.
#![tactic(auto)]

mod acts;
mod shows;

ghost use Rattle.std.specs.Prelude.{◌≡◌, length};
ghost use Rattle.std.specs.List.{AllByRecursion};
ghost use Rattle.std.specs.Prelude.{IfOk};
ghost use Rattle.n2_elf.specs.Reading.{IsSized};
ghost use Rattle.n2_parts.specs.Valid.{IsValid};

use acts::make_all;
use n2_asm::{AsmFault, assemble};
use n2_board::{Board, Layout, OpenFault};
use n2_boardtext::{TextFault, put_fault};
use n2_cases::{Cases, NoAnswer, answer_rows, bytes_in, number_in, put_shown, word_in, words_of};
use n2_elf::{ElfFault, Image};
use n2_flat::Flat;
use n2_hal::with_hal;
use n2_make::workload;
use shows::put_shows;
use std::alloc::Global;
use std::{io, slice};

/// A word of a file.
fn put_file_word(bytes: &mut Vec<u8>, word: &str) -> Result<(), NoAnswer> {
    Ok(bytes.extend_from_slice(&word_in(word)?.to_le_bytes())?)
}

/// Why a source of a case has no image.
fn no_image(fault: AsmFault) -> NoAnswer {
    match fault {
        AsmFault::NoMemory => NoAnswer::NoMemory,
        AsmFault::Row { row: _, kind: _ } => NoAnswer::NoCase,
    }
}

/// The image of a source with the routines behind it.
fn assembled(alloc: Global, source: &[u8]) -> Result<Image, NoAnswer>
    ensures { IfOk result IsSized }
{
    match assemble(alloc, &with_hal(alloc, source)?) {
        Ok(object) => Ok(object.image),
        Err(fault) => Err(no_image(fault)),
    }
}

/// `"TEXT"`: the image of a source with the routines behind it. `AT WORD ..`: the image of a file without
/// a header, which is loaded at an address.
fn image_in(alloc: Global, field: &str) -> Result<Image, NoAnswer>
    ensures { IfOk result IsSized }
{
    if field.trim().starts_with('"') {
        return assembled(alloc, &bytes_in(alloc, field.trim())?);
    }
    raw_in(alloc, field)
}

fn raw_in(alloc: Global, field: &str) -> Result<Image, NoAnswer>
    ensures { IfOk result IsSized }
{
    let words = words_of(alloc, field)?;
    let [at, words @ ..] = words.as_slice() else {
        return Err(NoAnswer::NoCase);
    };
    let at = word_in(at)?;
    let mut bytes = Vec::new(alloc);
    for word in words {
        put_file_word(&mut bytes, word)?;
    }
    if bytes.len() > 0x1_0000 {
        return Err(NoAnswer::NoCase);
    }
    match Image::raw(alloc, &bytes, at) {
        Ok(image) => Ok(image),
        Err(ElfFault::NoMemory) => Err(NoAnswer::NoMemory),
        Err(_) => Err(NoAnswer::NoCase),
    }
}

/// The flat machine of a board with images makes the acts of a field, and then shows itself.
fn put_run(
    alloc: Global,
    board: &Board,
    images: &[Image],
    rest: &str,
    out: &mut Vec<u8>,
) -> Result<(), NoAnswer>
    requires valid { IsValid board.now }
    requires images { length images.now ≡ length board.now.core }
    requires sized { AllByRecursion IsSized images.now }
{
    let (acts, shows) = rest.split_once('|').ok_or(NoAnswer::NoCase)?;
    match Layout::open(alloc, board, images) {
        Ok(layout) => {
            let mut flat = Flat::open(alloc, board, images, &layout)?;
            make_all(alloc, &mut flat, &layout, acts)?;
            put_shows(alloc, &flat, shows, out)
        }
        Err(OpenFault::NoMemory) => Err(NoAnswer::NoMemory),
        Err(fault) => put_shown(out, "", &fault),
    }
}

/// `IMAGE | ..` on a board of one core, `IMAGE | IMAGE | ..` on one of two.
fn put_flat(alloc: Global, board: &Board, rest: &str, out: &mut Vec<u8>) -> Result<(), NoAnswer>
    requires { IsValid board.now }
{
    let (first, rest) = rest.split_once('|').ok_or(NoAnswer::NoCase)?;
    let first = image_in(alloc, first)?;
    if board.core.len() == 1 {
        return put_run(alloc, board, slice::from_ref(&first), rest, out);
    }
    if board.core.len() != 2 {
        return Err(NoAnswer::NoCase);
    }
    let (second, rest) = rest.split_once('|').ok_or(NoAnswer::NoCase)?;
    let second = image_in(alloc, second)?;
    put_run(alloc, board, &[first, second], rest, out)
}

/// `N | ACT .. | SHOW | ..`: what the flat machine of the workload of N shows after these acts.
fn put_work(alloc: Global, rest: &str, out: &mut Vec<u8>) -> Result<(), NoAnswer> {
    let (n, rest) = rest.split_once('|').ok_or(NoAnswer::NoCase)?;
    let n = number_in(400, n.trim())? as u32;
    match workload(alloc, n) {
        Ok(work) => put_run(alloc, &work.board, work.images.as_slice(), rest, out),
        Err(fault) => Err(no_image(fault)),
    }
}

struct FlatCases;

impl Cases for FlatCases {
    /// `TEXT | IMAGE | .. | ACT .. | SHOW | ..`: what the flat machine of the board of a text with these
    /// images shows after these acts. `work N | ACT .. | SHOW | ..` is the same for a workload. The files
    /// of src say how acts and shows are written.
    fn answer(&self, alloc: Global, case: &str, out: &mut Vec<u8>) -> Result<(), NoAnswer> {
        if let Some(rest) = case.strip_prefix("work ") {
            return put_work(alloc, rest, out);
        }
        let (text, rest) = case.split_once('|').ok_or(NoAnswer::NoCase)?;
        match n2_boardtext::read(alloc, &bytes_in(alloc, text.trim())?) {
            Ok(board) => put_flat(alloc, &board, rest, out),
            Err(TextFault::NoMemory) => Err(NoAnswer::NoMemory),
            Err(fault) => Ok(put_fault(out, &fault)?),
        }
    }
}

fn main(rt: HostRuntime) -> io::Result<()> {
    answer_rows(&rt, &FlatCases)
}
