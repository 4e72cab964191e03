//! A folder and sinks in memory, which fail on demand.

ghost use Rattle.std.specs.Prelude.{◌≡◌, ◌-◌, ◌<◌, ◌≤◌, [], length, min, map, Some, None, Err, IfOk, IsErr, IsErrOf, is_err, IsTrue, ◌↔◌, vec_len, MatchResult, string_bytes, option_map};
ghost use Rattle.std.specs.List.{Contains};
ghost use Rattle.n2_outside.specs.Faults.{HasCause, counted, next};
ghost use Rattle.n2_outside.specs.Files.{IsFile, file_at};
ghost use Rattle.n2_outside.specs.FetchFaults.{HasFetchCause, is_failed};
ghost use Rattle.n2_outside.specs.Bytes.{Puts, IsPart, IsFailing};

use crate::{Failed, FetchFault, Folder, Sink};
use n2_word::NoMemory;
use std::alloc::Global;
use std::marker::Model;

/// Files in memory. The fetches whose numbers it was given, counted from 1, fail and no others do.
#[derive(Drop)]
pub struct MemFolder {
    files: Vec<(String, Vec<u8>)>,
    failing: Vec<u64>,
    calls: u64,
    faults: u64,
}

impl Model for MemFolder {
    ghost use Rattle.std.specs.Prelude.{map, string_bytes};
    ghost use Rattle.n2_outside.specs.Memory.{FolderState};

    ghost Value = { FolderState };

    ghost view = { λ f. record { files = map (λ file. (string_bytes file.0, file.1.items)) f.files.items; failing = f.failing.items; calls = f.calls; faults = f.faults } };
}

impl MemFolder {
    /// A folder of these files; of two equal names the first counts.
    pub fn new(files: Vec<(String, Vec<u8>)>, failing: Vec<u64>) -> MemFolder
        ensures { result ≡ record { files = map (λ file. (string_bytes file.0, file.1.items)) files.items; failing = failing.items; calls = 0; faults = 0 } }
    {
        MemFolder {
            files,
            failing,
            calls: 0,
            faults: 0,
        }
    }
}

fn find<'a>(files: &'a [(String, Vec<u8>)], name: &str) -> Option<&'a [u8]>
    ensures { option_map (λ bytes. bytes.now) result ≡ file_at (map (λ file. (string_bytes file.0, file.1.items)) files.now) name.now }
{
    for file in files {
        if file.0.as_str() == name {
            return Some(file.1.as_slice());
        }
    }
    None
}

impl Folder for MemFolder {
    ghost files = { λ f. Some f.files };

    ghost faults = { λ f. f.faults };

    fn fetch(&mut self, alloc: Global, name: &str, most: usize) -> Result<Vec<u8>, FetchFault>
        ensures fetched { MatchResult result (λ v. IsFile (Some self.old.files) name.now most v.items) (λ fault. HasFetchCause (Some self.old.files) self.old.faults self.new.faults name.now most fault) }
        ensures same { self.new.files ≡ self.old.files }
        ensures later { self.old.faults ≤ self.new.faults }
        ensures fails { IsErrOf result FetchFault.Failed ↔ Contains self.old.failing (next self.old.calls) }
        ensures counts { self.new.faults ≡ counted (is_failed result) self.old.faults }
        ensures calls { self.new.calls ≡ next self.old.calls }
        ensures keeps { self.new.failing ≡ self.old.failing }
    {
        self.calls = self.calls.saturating_add(1);
        if self.failing.contains(&self.calls) {
            self.faults = self.faults.saturating_add(1);
            return Err(FetchFault::Failed);
        }
        let Some(bytes) = find(self.files.as_slice(), name) else {
            return Err(FetchFault::Absent);
        };
        if bytes.len() > most {
            return Err(FetchFault::TooLong);
        }
        let Ok(copy) = bytes.to_vec(alloc) else {
            return Err(FetchFault::NoMemory);
        };
        Ok(copy)
    }
}

/// Keeps what is put, up to its room. The puts whose numbers it was given, counted from 1, fail.
#[derive(Drop)]
pub struct MemSink {
    bytes: Vec<u8>,
    failing: Vec<u64>,
    most: usize,
    room: usize,
    puts: u64,
    faults: u64,
}

impl Model for MemSink {
    ghost use Rattle.std.specs.Prelude.{◌<◌, ◌≤◌, vec_len};
    ghost use Rattle.std.specs.Vec.{vec_capacity};
    ghost use Rattle.n2_outside.specs.Memory.{SinkState};

    ghost Value = { SinkState };

    ghost view = { λ s. record { bytes = s.bytes.items; failing = s.failing.items; most = s.most; room = s.room; puts = s.puts; faults = s.faults } };

    ghost invariant = { λ s. (0 < s.most) × (s.room ≤ vec_capacity s.bytes) × (vec_len s.bytes ≤ s.room) };
}

impl MemSink {
    /// A sink that has room for `room` bytes and takes at most `most` at a put. It takes all its
    /// memory at once.
    pub fn new(
        alloc: Global,
        failing: Vec<u64>,
        most: usize,
        room: usize,
    ) -> Result<MemSink, NoMemory>
        requires { 0 < most }
        ensures { IfOk result (λ s. s ≡ record { bytes = []; failing = failing.items; most = most; room = room; puts = 0; faults = 0 }) }
    {
        match Vec::with_capacity(alloc, room) {
            Ok(bytes) => Ok(MemSink {
                bytes,
                failing,
                most,
                room,
                puts: 0,
                faults: 0,
            }),
            Err(_) => Err(NoMemory),
        }
    }

    /// The bytes that were put.
    pub fn written(&self) -> &[u8]
        ensures { result.now ≡ self.now.bytes }
    {
        self.bytes.as_slice()
    }
}

fn is_failing(failing: &[u64], room: usize, bytes: &[u8], number: u64, piece: &[u8]) -> bool
    ensures { IsTrue result ↔ IsFailing failing.now room bytes.now number piece.now }
{
    failing.contains(&number) || (!piece.is_empty() && bytes.len() == room)
}

impl Sink for MemSink {
    ghost told = { λ s. Some s.bytes };

    ghost faults = { λ s. s.faults };

    fn put(&mut self, piece: &[u8]) -> Result<usize, Failed>
        ensures part { IsPart piece.now result }
        ensures bytes { Puts (Some self.old.bytes) (Some self.new.bytes) piece.now result }
        ensures cause { HasCause self.old.faults self.new.faults result }
        ensures fails { IsErr result ↔ IsFailing self.old.failing self.old.room self.old.bytes (next self.old.puts) piece.now }
        ensures takes { IfOk result (λ n. n ≡ min (length piece.now) (min self.old.most (self.old.room - length self.old.bytes))) }
        ensures counts { self.new.faults ≡ counted (is_err result) self.old.faults }
        ensures puts { self.new.puts ≡ next self.old.puts }
        ensures keeps { (self.new.failing ≡ self.old.failing) × (self.new.most ≡ self.old.most) × (self.new.room ≡ self.old.room) }
    {
        self.puts = self.puts.saturating_add(1);
        if is_failing(
            self.failing.as_slice(),
            self.room,
            self.bytes.as_slice(),
            self.puts,
            piece,
        ) {
            self.faults = self.faults.saturating_add(1);
            return Err(Failed);
        }
        let count = piece.len().min(self.most).min(self.room - self.bytes.len());
        match self.bytes.extend_from_slice(&piece[..count]) {
            Ok(()) => Ok(count),
            Err(_) => unreachable!(),
        }
    }
}

/// Takes everything and keeps nothing. It never fails, and tells nothing.
#[derive(Clone, Copy, Debug)]
pub struct NullSink;

impl NullSink {
    /// A sink that keeps nothing.
    pub fn new() -> NullSink {
        NullSink
    }
}

impl Sink for NullSink {
    ghost told = { λ _. None };

    ghost faults = { λ _. 0 };

    fn put(&mut self, piece: &[u8]) -> Result<usize, Failed>
        ensures part { IsPart piece.now result }
        ensures bytes { Puts None None piece.now result }
        ensures cause { HasCause 0 0 result }
        ensures takes { result ≡ Ok (length piece.now) }
    {
        Ok(piece.len())
    }
}
