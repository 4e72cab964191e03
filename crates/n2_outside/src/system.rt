//! The real outside: the current folder and standard output. They tell nothing.

ghost use Rattle.std.specs.Prelude.{◌≡◌, ◌≤◌, ◌<◌, ◌+◌, ◌↔◌, ℕ, None, Ok, length, take, is_err, IfOk, IfErr, IfSome, IsErr, IsErrOf, IsOkAnd, OnOk, MatchResult};
ghost use Rattle.std.specs.Io.KnownBytes.{WriteAppends};
ghost use Rattle.std.specs.IoError.{error_kind};
ghost use Rattle.n2_outside.specs.Faults.{HasCause, counted, next};
ghost use Rattle.n2_outside.specs.Bytes.{IsPart, Puts};
ghost use Rattle.n2_outside.specs.Files.{IsFile};
ghost use Rattle.n2_outside.specs.FetchFaults.{HasFetchCause};
ghost use Rattle.n2_outside.specs.System.{IsFailedWrite, fault_of as fault_by};

use crate::{Failed, FetchFault, Folder, Sink};
use std::alloc::Global;
use std::io::{ErrorKind, Printer, Read, Write};
use std::marker::Model;
use std::rt::Files;
use std::{fs, io};

/// The current folder of the process. Every fetch that gives no file is counted.
#[derive(Drop)]
pub struct DirFolder<'a, R> {
    rt: &'a R,
    faults: u64,
}

impl<'a, R> Model for DirFolder<'a, R> {
    ghost use Rattle.std.specs.Prelude.{ℕ};

    ghost Value = { ℕ };

    ghost view = { λ f. f.faults };
}

impl<'a, R: Files> DirFolder<'a, R> {
    /// No fetch has failed yet.
    pub fn new(rt: &'a R) -> DirFolder<'a, R>
        ensures { result ≡ 0 }
    {
        DirFolder { rt, faults: 0 }
    }
}

/// What a reader has left, of which no more than `most + 1` bytes are read.
fn read_up_to<R: Read + Drop>(alloc: Global, reader: R, most: usize) -> io::Result<Vec<u8>>
    ensures { IfOk result (λ v. IfSome (R.remaining reader) (λ bytes. v.items ≡ take (next most) bytes)) }
{
    let mut bytes = Vec::new(alloc);
    let limit = (most as u64).saturating_add(1);
    reader.take(limit).read_to_end(&mut bytes)?;
    Ok(bytes)
}

fn fault_of(error: &io::Error) -> FetchFault
    ensures { result ≡ fault_by (error_kind error.now) }
{
    match error.kind() {
        ErrorKind::NotFound => FetchFault::Absent,
        ErrorKind::OutOfMemory => FetchFault::NoMemory,
        _ => FetchFault::Failed,
    }
}

/// What a fetch of at most `most` bytes answers to a read; every fault is counted.
fn fetch_answer(
    read: io::Result<Vec<u8>>,
    most: usize,
    faults: &mut u64,
) -> Result<Vec<u8>, FetchFault>
    ensures file { IfOk result (λ v. (read ≡ Ok v) × (length v.items ≤ most)) }
    ensures too_long { IsErrOf result FetchFault.TooLong ↔ IsOkAnd read (λ v. most < length v.items) }
    ensures fault { IfErr read (λ e. result ≡ Err (fault_by (error_kind e))) }
    ensures counts { faults.new ≡ counted (is_err result) faults.old }
    ensures later { faults.old ≤ faults.new }
{
    let fault = match read {
        Ok(bytes) if bytes.len() <= most => return Ok(bytes),
        Ok(_) => FetchFault::TooLong,
        Err(error) => fault_of(&error),
    };
    *faults = faults.saturating_add(1);
    Err(fault)
}

/// What a fetch of at most `most` bytes answers to the opening of a file, which is read to its end.
fn fetch_from<R: Read + Drop>(
    alloc: Global,
    opened: io::Result<R>,
    most: usize,
    faults: &mut u64,
) -> Result<Vec<u8>, FetchFault>
    ensures unopened { IfErr opened (λ e. result ≡ Err (fault_by (error_kind e))) }
    ensures file { IfOk opened (λ reader. IfSome (R.remaining reader) (λ bytes. IfOk result (λ v. v.items ≡ take (next most) bytes))) }
    ensures too_long { IfOk opened (λ reader. IfSome (R.remaining reader) (λ bytes. IsErrOf result FetchFault.TooLong → most < length bytes)) }
    ensures limit { IfOk result (λ v. length v.items ≤ most) }
    ensures counts { faults.new ≡ counted (is_err result) faults.old }
    ensures later { faults.old ≤ faults.new }
{
    let read = match opened {
        Ok(reader) => read_up_to(alloc, reader, most),
        Err(error) => Err(error),
    };
    fetch_answer(read, most, faults)
}

impl<'a, R: Files> Folder for DirFolder<'a, R> {
    ghost files = { λ _. None };

    ghost faults = { λ f. f };

    fn fetch(&mut self, alloc: Global, name: &str, most: usize) -> Result<Vec<u8>, FetchFault>
        ensures fetched { MatchResult result (λ v. IsFile None name.now most v.items) (λ fault. HasFetchCause None self.old self.new name.now most fault) }
        ensures later { self.old ≤ self.new }
        ensures kept { OnOk result (self.new ≡ self.old) }
        ensures counts { self.new ≡ counted (is_err result) self.old }
    {
        fetch_from(alloc, fs::open(self.rt, name), most, &mut self.faults)
    }
}

/// A sink over a writer, which makes one write for a put. Every put that fails is counted.
#[derive(Drop)]
pub struct WriteSink<W: Write> {
    writer: W,
    faults: u64,
}

impl<W: Write> Model for WriteSink<W> {
    ghost use Rattle.n2_outside.specs.System.{WriterState};

    ghost Value = { WriterState };

    ghost view = { λ s. record { contents = W.contents s.writer; faults = s.faults } };
}

/// Standard output.
pub type StdSink<'a, R> = WriteSink<Printer<'a, R>>;

impl<'a, R: Print> WriteSink<Printer<'a, R>> {
    /// No put has failed yet.
    pub fn new(rt: &'a R) -> StdSink<'a, R>
        ensures { result.faults ≡ 0 }
    {
        WriteSink {
            writer: io::writer(rt),
            faults: 0,
        }
    }
}

/// What a put of a piece answers to a write of it; every failure is counted.
pub fn put_answer(
    written: io::Result<usize>,
    piece: &[u8],
    faults: &mut u64,
) -> Result<usize, Failed>
    ensures fails { IsErr result ↔ IsFailedWrite written piece.now }
    ensures count { IfOk result (λ n. written ≡ Ok n) }
    ensures counts { faults.new ≡ counted (is_err result) faults.old }
    ensures later { faults.old ≤ faults.new }
{
    match written {
        Ok(count) if count > 0 || piece.is_empty() => Ok(count),
        _ => {
            *faults = faults.saturating_add(1);
            Err(Failed)
        }
    }
}

impl<W: Write> Sink for WriteSink<W> {
    ghost told = { λ _. None };

    ghost faults = { λ s. s.faults };

    fn put(&mut self, piece: &[u8]) -> Result<usize, Failed>
        ensures part { IsPart piece.now result }
        ensures bytes { Puts None None piece.now result }
        ensures cause { HasCause self.old.faults self.new.faults result }
        ensures written { WriteAppends self.old.contents self.new.contents result piece.now }
        ensures counts { self.new.faults ≡ counted (is_err result) self.old.faults }
    {
        let written = self.writer.write(piece);
        put_answer(written, piece, &mut self.faults)
    }
}
