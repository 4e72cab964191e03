//! The private instruction cache of a core: direct-mapped, with lines of 32 bytes.
#![tactic(auto)]

ghost use Rattle.std.specs.Prelude.{◌≡◌, ◌<◌, IsTrue, IfOk, length};

use n2_dcache::DCache;
use n2_word::{NoMemory, line_of};
use std::alloc::Global;
use std::marker::Model;

/// A direct-mapped cache of lines of 32 bytes, seen as one optional line for each set (Nios II
/// Processor Reference Guide, "Cache Memory"). It is a data cache into which nothing is stored, so
/// the laws of `n2_dcache` hold of it.
#[derive(Debug, Drop)]
pub struct ICache {
    lines: DCache,
}

impl Model for ICache {
    ghost use Rattle.std.specs.Prelude.{List, Option};
    ghost use Rattle.n2_dcache.specs.declared.Held.{Held};
    ghost use Rattle.n2_icache.specs.Code.{IsClean};

    ghost Value = { List (Option Held) };

    ghost view = { λ c. c.lines };

    ghost invariant = { λ c. IsClean c.lines };
}

impl ICache {
    ghost use Rattle.n2_word.specs.Lines.{is_cache_size};
    ghost use Rattle.n2_dcache.specs.Cache.{IsPlaced, filled, set_dropped, opened};
    ghost use Rattle.n2_icache.specs.Code.{word_at, IsClean};

    /// An empty cache of so many bytes, which takes all its memory here. NoMemory is its only error.
    pub fn open(alloc: Global, bytes: u32) -> Result<ICache, NoMemory>
        requires { IsTrue (is_cache_size bytes) }
        ensures { IfOk result (λ cache. cache ≡ opened bytes) }
    {
        let lines = DCache::open(alloc, bytes)?;
        Ok(ICache { lines })
    }

    /// How many sets there are: at least one. Each line that is held stands in its own, and none is
    /// dirty.
    pub fn sets(&self) -> u32
        ensures count { result ≡ length self.now }
        ensures some { 0 < result }
        ensures placed { IsPlaced self.now }
        ensures clean { IsClean self.now }
    {
        self.lines.sets()
    }

    /// The word at an address; None exactly where its line is not held. Bit 31 and the lane of the
    /// address do not count.
    #[inline(always)]
    pub fn find(&self, address: u32) -> Option<u32>
        ensures { result ≡ word_at self.now address }
    {
        let held = self.lines.find(line_of(address))?;
        Some(held.words[(address % 32 / 4) as usize])
    }

    /// Puts a line into its set, in place of what the set held.
    pub fn fill(&mut self, line: u32, words: &[u32; 8])
        ensures { self.new ≡ filled self.old line words.now }
    {
        self.lines.fill(line, words);
    }

    /// Empties a set, as `flushi` and `initi` do.
    pub fn drop_set(&mut self, set: u32)
        requires { set < length self.old }
        ensures { self.new ≡ set_dropped self.old set }
    {
        self.lines.drop_set(set);
    }
}
