//! Which lines the data cache of a core holds dirty, by what the core did.

ghost use Rattle.std.specs.Prelude.{◌<◌, length};

use n2_insn::DataOp;
use n2_watch::Past;
use n2_word::{NoMemory, line_of};
use std::alloc::Global;

/// For each set of a direct-mapped cache the line that it holds dirty, if it holds one, and how many past
/// events of the core were looked at.
#[derive(Drop)]
pub struct Dirty {
    sets: Vec<Option<u32>>,
    seen: usize,
    ghost some: { 0 < length sets.items },
}

fn is_flush(event: &Past) -> bool {
    match event {
        Past::Clean { op, .. } => matches!(op, DataOp::Flushd | DataOp::Flushda),
        _ => false,
    }
}

impl Dirty {
    /// None of an empty cache of so many bytes.
    pub fn open(alloc: Global, bytes: u32) -> Result<Dirty, NoMemory> {
        let count = if bytes < 32 { 1 } else { bytes / 32 };
        let sets = vec![in alloc; None; count as usize]?;
        Ok(Dirty { sets, seen: 0 })
    }

    fn set_of(&self, number: u64) -> usize
        ensures { result < length self.now.sets.items }
    {
        (number % self.sets.len() as u64) as usize
    }

    fn is_dirty(&self, line: u32) -> bool {
        self.sets[self.set_of(u64::from(line))] == Some(line)
    }

    fn touch(&mut self, line: u32, store: bool) {
        if store || !self.is_dirty(line) {
            let set = self.set_of(u64::from(line));
            self.sets[set] = if store { Some(line) } else { None };
        }
    }

    fn clean(&mut self, op: DataOp, line: u32) {
        let all = matches!(op, DataOp::Initd | DataOp::Flushd);
        if all || self.is_dirty(line) {
            let set = self.set_of(u64::from(line));
            self.sets[set] = None;
        }
    }

    fn note(&mut self, event: &Past) {
        match *event {
            Past::Touch { line, store } => self.touch(line, store),
            Past::Clean { op, address } => self.clean(op, line_of(address)),
            Past::Got(_) | Past::Gave(_) => {}
        }
    }

    /// Takes in the events that are new, and says whether a flush is among them.
    pub fn follow(&mut self, past: &[Past]) -> bool {
        let seen = self.seen;
        self.seen = past.len();
        let mut flushed = false;
        for event in past.iter().skip(seen) {
            self.note(event);
            flushed = flushed || is_flush(event);
        }
        flushed
    }

    /// An eviction empties a set, which goes round by their number.
    pub fn evict(&mut self, number: u64) {
        let set = self.set_of(number);
        self.sets[set] = None;
    }

    /// Whether the cache holds a line dirty.
    pub fn has(&self, line: u32) -> bool {
        self.is_dirty(line)
    }
}
