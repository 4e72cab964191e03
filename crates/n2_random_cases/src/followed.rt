//! What is followed of a run beside its machines.

ghost use Rattle.std.specs.Prelude.{◌<◌, length};

use crate::counts::add;
use crate::dirty::Dirty;
use crate::sent::Sent;
use n2_board::Stop;
use n2_flat::Flat;
use n2_parts::CoreRow;
use n2_smp::Machine;
use n2_watch::Past;
use n2_word::NoMemory;
use std::alloc::Global;

/// What the data cache of a core holds dirty, and of how many turns one samples or evicts.
#[derive(Drop)]
struct Cache {
    dirty: Dirty,
    sample: u64,
    evict: u64,
}

impl Cache {
    fn open(alloc: Global, row: &CoreRow) -> Result<Cache, NoMemory> {
        Ok(Cache {
            dirty: Dirty::open(alloc, row.dcache)?,
            sample: u64::from(row.sample),
            evict: u64::from(row.evict),
        })
    }

    /// Empties a set where a turn does so.
    fn end_turn(&mut self, turn: u64) {
        if self.sample == 0 || self.evict == 0 {
            return;
        }
        let samples = turn % self.sample == self.sample - 1;
        if !samples && turn % self.evict == self.evict - 1 {
            self.dirty.evict(turn / self.evict);
        }
    }
}

fn caches(alloc: Global, rows: &[CoreRow]) -> Result<Vec<Cache>, NoMemory> {
    let mut caches = Vec::new(alloc);
    for row in rows {
        caches.push(Cache::open(alloc, row)?)?;
    }
    Ok(caches)
}

/// What caches hold dirty, the bytes that UARTs of the flat machine were sent and how many of each are
/// known, and how many lines were written back by flushes.
#[derive(Drop)]
pub struct Followed {
    caches: Vec<Cache>,
    pub sent: Vec<Sent>,
    known: [usize; 2],
    pub flushes: u64,
}

impl Followed {
    /// Before the first turn of cores.
    pub fn open(alloc: Global, rows: &[CoreRow]) -> Result<Followed, NoMemory> {
        Ok(Followed {
            caches: caches(alloc, rows)?,
            sent: Vec::new(alloc),
            known: [0; 2],
            flushes: 0,
        })
    }

    /// Follows the cache of a core through its turn of that number: what the core did so far, and whether
    /// the turn had a transfer or found the journal full.
    fn follow(&mut self, core: u32, turn: u64, past: &[Past], transferred: bool, full: bool) {
        let Some(cache) = self.caches.get_mut(core as usize) else {
            return;
        };
        let flushed = cache.dirty.follow(past);
        if !full {
            cache.end_turn(turn);
        }
        if flushed && transferred {
            add(&mut self.flushes);
        }
    }

    /// Notes the byte that a UART was sent in a turn of a core, if it was sent one, by all that it was sent.
    fn note_sent(&mut self, bytes: &[u8], uart: u32, core: u32, turn: u64) -> Result<(), NoMemory>
        requires { uart < 2 }
    {
        if let Some(byte) = bytes.get(self.known[uart as usize]) {
            self.sent.push(Sent {
                uart,
                byte: *byte,
                core,
                turn,
            })?;
        }
        self.known[uart as usize] = bytes.len();
        Ok(())
    }

    /// Takes in what a core did in its turn of that number, which both machines have made.
    pub fn note(
        &mut self,
        machine: &Machine,
        flat: &Flat,
        core: u32,
        turn: u64,
    ) -> Result<(), NoMemory>
        requires caching { core < length machine.now.board.core }
        requires flat { core < length flat.now.cores }
    {
        let caching = machine.core(core);
        let transferred = caching.since_transfer() == 0;
        let full = caching.stop() == Some(Stop::LogFull);
        self.follow(core, turn, flat.past(core), transferred, full);
        let turns = caching.turns();
        self.note_sent(flat.output(0), 0, core, turns)?;
        self.note_sent(flat.output(1), 1, core, turns)
    }

    /// Whether a core holds a line dirty.
    pub fn is_held_dirty(&self, line: u32) -> bool {
        self.caches.iter().any(|cache| cache.dirty.has(line))
    }
}
