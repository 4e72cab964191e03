//! Rows and their answers.

use crate::NoAnswer;
use crate::fields::number_in;
use n2_outside::{StdSink, put_all};
use std::alloc::{AllocError, Global};
use std::io::{self, BufRead, BufReader, ErrorKind, Input, Print};

/// What answers the cases of a program.
pub trait Cases {
    /// Appends the answer of a case.
    fn answer(&self, alloc: Global, case: &str, out: &mut Vec<u8>) -> Result<(), NoAnswer>;
}

/// A row with `<PIECE*N>` written out.
fn expanded(alloc: Global, row: &str) -> Result<String, NoAnswer> {
    let mut out = String::new(alloc);
    for (i, part) in row.split('<').enumerate() {
        if i == 0 {
            out.push_str(part)?;
        } else {
            let (copies, rest) = part.split_once('>').ok_or(NoAnswer::NoCase)?;
            let (piece, count) = copies.split_once('*').ok_or(NoAnswer::NoCase)?;
            out.push_str(repeated(alloc, piece, count)?.as_str())?;
            out.push_str(rest)?;
        }
    }
    Ok(out)
}

/// The copies that `PIECE*N` stands for.
fn repeated(alloc: Global, piece: &str, count: &str) -> Result<String, NoAnswer> {
    let mut copies = String::new(alloc);
    for _ in 0..number_in(4_000_000, count)? {
        copies.push_str(piece)?;
    }
    Ok(copies)
}

/// The answer of a row that is written out, without its line feed.
fn answer_of<C: Cases>(alloc: Global, cases: &C, row: &str) -> Result<Vec<u8>, NoAnswer> {
    let mut out = Vec::new(alloc);
    cases.answer(alloc, expanded(alloc, row)?.as_str(), &mut out)?;
    Ok(out)
}

/// The row that answers a row, with its line feed.
fn answered<C: Cases>(alloc: Global, cases: &C, row: &str) -> Result<Vec<u8>, AllocError> {
    let answer = if row.is_empty() || row.starts_with('#') {
        Ok(row.as_bytes().to_vec(alloc)?)
    } else {
        answer_of(alloc, cases, row)
    };
    let mut out = match answer {
        Ok(out) => out,
        Err(NoAnswer::NoCase) => b"no case".to_vec(alloc)?,
        Err(NoAnswer::NoMemory) => return Err(AllocError),
    };
    out.push(b'\n')?;
    Ok(out)
}

/// Answers each row of standard input with one row of standard output.
pub fn answer_rows<R: Input + Print + AllocGlobal, C: Cases>(rt: &R, cases: &C) -> io::Result<()> {
    let alloc = rt.alloc();
    let mut out = StdSink::new(rt);
    for row in BufReader::new(alloc, rt.reader())?.lines(alloc) {
        let answer = answered(alloc, cases, row?.as_str())?;
        if put_all(&mut out, &answer).is_err() {
            return Err(io::Error::from(ErrorKind::Other));
        }
    }
    Ok(())
}
