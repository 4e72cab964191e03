//! The outside: folders that files are fetched from and sinks that texts are put into, each with a
//! written meaning and a count of faults that never falls.
#![tactic(auto)]

ghost use Rattle.std.specs.Prelude.{◌≡◌, ℕ, ◌≤◌, ◌<◌, ◌-◌, List, Option, [], MatchResult, OnOk, OnErr};
ghost use Rattle.n2_outside.specs.Faults.{HasCause};
ghost use Rattle.n2_outside.specs.Files.{Files, IsFile};
ghost use Rattle.n2_outside.specs.Bytes.{appended, IsPart, Puts, PutsPrefix};

mod file;
mod gate;
mod memory;
mod system;

pub use file::FileSink;
pub use gate::{Gate, OpenGate};
pub use memory::{MemFolder, MemSink, NullSink};
use std::alloc::Global;
pub use system::{DirFolder, StdSink, WriteSink};

/// Why a file was not fetched.
#[derive(Clone, Copy, Debug, PartialEq, Eq)]
pub enum FetchFault {
    /// No file has the name.
    Absent,
    /// The file is longer than was asked for.
    TooLong,
    /// The outside failed.
    Failed,
    /// No memory was left.
    NoMemory,
}

/// A put failed.
#[derive(Clone, Copy, Debug, PartialEq, Eq)]
pub struct Failed;

/// Where files come from.
pub trait Folder {
    ghost use Rattle.n2_outside.specs.FetchFaults.{HasFetchCause};

    /// The files by their names, where they are told. They never change.
    ghost files: { Self → Option Files };

    /// How many fetches failed; it never falls, and stands still at a fetch that gives a file.
    ghost faults: { Self → ℕ };

    /// The bytes of a file of at most `most` bytes. Over a folder that tells its files, `Absent` and
    /// `TooLong` come exactly where no file has the name and where it is longer, unless the call
    /// failed; over another only where the count of faults rose. `Failed` comes only where it rose.
    fn fetch(&mut self, alloc: Global, name: &str, most: usize) -> Result<Vec<u8>, FetchFault>
        ensures fetched { MatchResult result (λ v. IsFile (files self.old) name.now most v.items) (λ fault. HasFetchCause (files self.old) (faults self.old) (faults self.new) name.now most fault) }
        ensures same { files self.new ≡ files self.old }
        ensures later { faults self.old ≤ faults self.new }
        ensures kept { OnOk result (faults self.new ≡ faults self.old) };
}

/// Where bytes are put.
pub trait Sink {
    /// The bytes that were put, where they are told.
    ghost told: { Self → Option (List ℕ) };

    /// How many puts failed; it never falls, and stands still at a put that does not fail.
    ghost faults: { Self → ℕ };

    /// Appends a prefix of a piece, and answers how many bytes of it, at least one where the piece
    /// is not empty. `Failed` appends nothing, and comes only where the count of faults rose.
    fn put(&mut self, piece: &[u8]) -> Result<usize, Failed>
        ensures part { IsPart piece.now result }
        ensures bytes { Puts (told self.old) (told self.new) piece.now result }
        ensures cause { HasCause (faults self.old) (faults self.new) result };
}

/// Appends a whole text; an empty one makes no put. `Failed` has appended a prefix of it, and comes
/// only where the count of faults rose.
pub fn put_all<S: Sink>(sink: &mut S, text: &[u8]) -> Result<(), Failed>
    ensures all { OnOk result (S.told sink.new ≡ appended (S.told sink.old) text.now) }
    ensures prefix { OnErr result (PutsPrefix (S.told sink.old) (S.told sink.new) text.now) }
    ensures empty { text.now ≡ [] → sink.new ≡ sink.old }
    ensures cause { HasCause (S.faults sink.old) (S.faults sink.new) result }
{
    let mut at = 0;
    while at < text.len() {
        at += sink.put(&text[at..])?;
    }
    Ok(())
}
