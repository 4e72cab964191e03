//! A file that a text is put into. It tells nothing.

ghost use Rattle.std.specs.Prelude.{◌≡◌, ◌≤◌, None, Err, is_err, IfOk, IfErr, IfSome, IsSome, OnOk, length};
ghost use Rattle.std.specs.Io.KnownBytes.{WriteAppends};
ghost use Rattle.n2_outside.specs.Faults.{HasCause, counted};
ghost use Rattle.n2_outside.specs.Bytes.{IsPart, Puts};

use crate::system::put_answer;
use crate::{Failed, Sink};
use std::io::Write;
use std::marker::Model;
use std::rt::Files;
use std::{fs, io};

/// A file of the current folder, which is made at the first put, empty also where one of its name was
/// there; where no put comes nothing is made. Every put that fails is counted, and where the file could
/// not be made the next put tries again.
#[derive(Drop)]
pub struct FileSink<'a, R: Files> {
    rt: &'a R,
    name: &'static str,
    file: Option<R::File>,
    faults: u64,
}

impl<'a, R: Files> Model for FileSink<'a, R> {
    ghost use Rattle.std.specs.Prelude.{option_map};
    ghost use Rattle.n2_outside.specs.System.{FileState};

    ghost Value = { FileState };

    ghost view = { λ s. record { file = option_map (λ file. R.File.Write.contents file) s.file; faults = s.faults } };
}

impl<'a, R: Files> FileSink<'a, R> {
    /// The file is not made yet, and no put has failed.
    pub fn new(rt: &'a R, name: &'static str) -> FileSink<'a, R>
        ensures file { result.file ≡ None }
        ensures faults { result.faults ≡ 0 }
    {
        FileSink {
            rt,
            name,
            file: None,
            faults: 0,
        }
    }
}

/// What the first write to a file answers after the file was to be made; a file that was made is kept.
fn write_first<W: Write + Drop>(
    made: io::Result<W>,
    kept: &mut Option<W>,
    piece: &[u8],
) -> io::Result<usize>
    ensures unmade { IfErr made (λ e. (result ≡ Err e) × (kept.new ≡ kept.old)) }
    ensures file { IfOk made (λ file. IsSome kept.new) }
    ensures bound { IfOk result (λ n. n ≤ length piece.now) }
    ensures written { IfOk made (λ file. IfSome kept.new (λ now. WriteAppends (W.contents file) (W.contents now) result piece.now)) }
{
    let mut file = made?;
    let written = file.write(piece);
    *kept = Some(file);
    written
}

impl<'a, R: Files> Sink for FileSink<'a, R> {
    ghost told = { λ _. None };

    ghost faults = { λ s. s.faults };

    fn put(&mut self, piece: &[u8]) -> Result<usize, Failed>
        ensures part { IsPart piece.now result }
        ensures bytes { Puts None None piece.now result }
        ensures cause { HasCause self.old.faults self.new.faults result }
        ensures made { OnOk result (IsSome self.new.file) }
        ensures written { IfSome self.old.file (λ before. IfSome self.new.file (λ now. WriteAppends before now result piece.now)) }
        ensures kept { IsSome self.old.file → IsSome self.new.file }
        ensures counts { self.new.faults ≡ counted (is_err result) self.old.faults }
    {
        let written = match &mut self.file {
            Some(file) => file.write(piece),
            None => write_first(fs::create(self.rt, self.name), &mut self.file, piece),
        };
        put_answer(written, piece, &mut self.faults)
    }
}
