//! The private data cache of a core: direct-mapped, with lines of 32 bytes.
#![tactic(auto)]

ghost use Rattle.std.specs.Prelude.{◌≡◌, ◌<◌, IsTrue, IfOk, false, length};
ghost use Rattle.std.specs.Option.{option_copied};
ghost use Rattle.n2_dcache.specs.Cache.{opened};

pub mod laws;

use n2_word::{NoMemory, Width, extract, line_of, merge};
use std::alloc::Global;
use std::marker::Model;

/// A line that a set holds: its number, its eight words, and whether a store changed it since it
/// was filled.
#[derive(Clone, Copy, Debug, PartialEq, Eq)]
pub struct Held {
    pub line: u32,
    pub words: [u32; 8],
    pub dirty: bool,
}

/// A direct-mapped cache of lines of 32 bytes, seen as one optional line for each set (Nios II
/// Processor Reference Guide, "Cache Memory").
#[derive(Debug, Drop)]
pub struct DCache {
    slots: Vec<Option<Held>>,
}

impl Model for DCache {
    ghost use Rattle.std.specs.Prelude.{List, Option};
    ghost use Rattle.n2_dcache.specs.declared.Held.{Held};
    ghost use Rattle.n2_dcache.specs.Cache.{IsWhole};

    ghost Value = { List (Option Held) };

    ghost view = { λ c. c.slots.items };

    ghost invariant = { λ c. IsWhole c.slots.items };
}

impl DCache {
    ghost use Rattle.n2_word.specs.Words.{is_aligned};
    ghost use Rattle.n2_word.specs.Lines.{line, is_cache_size};
    ghost use Rattle.n2_dcache.specs.Cache.{IsPlaced, slot_at, own_set, is_dirty, has_line, held_line, loaded, found, stored, stored_if_held, filled, set_dropped, line_dropped};

    /// An empty cache of so many bytes, which takes all its memory here. NoMemory is its only error.
    pub fn open(alloc: Global, bytes: u32) -> Result<DCache, NoMemory>
        requires { IsTrue (is_cache_size bytes) }
        ensures { IfOk result (λ cache. cache ≡ opened bytes) }
    {
        let slots = empty_slots(alloc, bytes)?;
        Ok(DCache { slots })
    }

    /// How many sets there are: at least one, and each line that is held stands in its own.
    pub fn sets(&self) -> u32
        ensures count { result ≡ length self.now }
        ensures some { 0 < result }
        ensures placed { IsPlaced self.now }
    {
        self.slots.len() as u32
    }

    /// A line where it is held; None exactly where it is not.
    #[inline(always)]
    pub fn find(&self, line: u32) -> Option<&Held>
        ensures { option_copied result ≡ held_line self.now line }
    {
        match &self.slots[self.set_of(line)] {
            Some(held) if held.line == line => Some(held),
            _ => None,
        }
    }

    /// Whether a line is held.
    #[inline(always)]
    pub fn has(&self, line: u32) -> bool
        ensures { result ≡ has_line self.now line }
    {
        match &self.slots[self.set_of(line)] {
            Some(held) => held.line == line,
            None => false,
        }
    }

    /// What a set holds; None exactly where it is empty.
    pub fn held(&self, set: u32) -> Option<Held>
        requires { set < length self.now }
        ensures { result ≡ slot_at self.now set }
    {
        self.slots[set as usize]
    }

    /// Whether a set holds a dirty line.
    #[inline(always)]
    pub fn is_dirty(&self, set: u32) -> bool
        requires { set < length self.now }
        ensures { result ≡ is_dirty (slot_at self.now set) }
    {
        match &self.slots[set as usize] {
            Some(held) => held.dirty,
            None => false,
        }
    }

    /// The byte, half or word at an address of a held line, zero-extended.
    #[inline(always)]
    pub fn load(&self, address: u32, width: Width) -> u32
        requires there { IsTrue (has_line self.now (line address)) }
        requires aligned { IsTrue (is_aligned address width) }
        ensures { result ≡ loaded self.now address width }
    {
        match &self.slots[self.set_of(line_of(address))] {
            Some(held) => held.read(address, width),
            None => unreachable!(),
        }
    }

    /// `load` where the line of the address is held, and None exactly where it is not: one look at
    /// the set in place of `has` and `load`.
    #[inline(always)]
    pub fn try_load(&self, address: u32, width: Width) -> Option<u32>
        requires { IsTrue (is_aligned address width) }
        ensures { result ≡ found self.now address width }
    {
        let held = self.find(line_of(address))?;
        Some(held.read(address, width))
    }

    /// Writes the low bits of a value at an address of a held line, which is dirty then.
    #[inline(always)]
    pub fn store(&mut self, address: u32, width: Width, value: u32)
        requires there { IsTrue (has_line self.old (line address)) }
        requires aligned { IsTrue (is_aligned address width) }
        ensures { self.new ≡ stored self.old address width value }
    {
        let set = self.set_of(line_of(address));
        match &mut self.slots[set] {
            Some(held) => held.write(address, width, value),
            None => unreachable!(),
        }
    }

    /// `store` where the line of the address is held; tells whether it is, and changes nothing where
    /// it is not.
    #[inline(always)]
    pub fn try_store(&mut self, address: u32, width: Width, value: u32) -> bool
        requires { IsTrue (is_aligned address width) }
        ensures there { result ≡ has_line self.old (line address) }
        ensures after { self.new ≡ stored_if_held self.old address width value }
    {
        let line = line_of(address);
        let set = self.set_of(line);
        match &mut self.slots[set] {
            Some(held) if held.line == line => {
                held.write(address, width, value);
                true
            }
            _ => false,
        }
    }

    /// Puts a clean line into its set, in place of what the set held, which was not dirty.
    pub fn fill(&mut self, line: u32, words: &[u32; 8])
        requires { is_dirty (slot_at self.old (own_set self.old line)) ≡ false }
        ensures { self.new ≡ filled self.old line words.now }
    {
        let set = self.set_of(line);
        self.slots[set] = Some(Held {
            line,
            words: *words,
            dirty: false,
        });
    }

    /// Empties a set, without write-back, as `initd` does.
    pub fn drop_set(&mut self, set: u32)
        requires { set < length self.old }
        ensures { self.new ≡ set_dropped self.old set }
    {
        self.slots[set as usize] = None;
    }

    /// Drops a line where it is held, without write-back, as `initda` does; another line of its set
    /// stays.
    pub fn drop_line(&mut self, line: u32)
        ensures { self.new ≡ line_dropped self.old line }
    {
        if self.has(line) {
            let set = self.set_of(line);
            self.slots[set] = None;
        }
    }

    /// The set that keeps a line. Their number is a power of two.
    #[inline(always)]
    #[tactic(auto, using(n2_word::proofs::Masks::mask_is_rest))]
    fn set_of(&self, line: u32) -> usize
        ensures set { result ≡ own_set self.now line }
        ensures below { result < length self.now }
    {
        line as usize & (self.slots.len() - 1)
    }
}

impl Held {
    ghost use Rattle.n2_word.specs.Words.{is_aligned};
    ghost use Rattle.n2_dcache.specs.Cache.{read_in, stored_in};

    /// The byte, half or word at an address of this line.
    #[inline(always)]
    fn read(&self, address: u32, width: Width) -> u32
        requires { IsTrue (is_aligned address width) }
        ensures { result ≡ read_in address width self.now }
    {
        extract(self.words[(address % 32 / 4) as usize], address % 4, width)
    }

    /// Writes the low bits of a value at an address of this line.
    #[inline(always)]
    fn write(&mut self, address: u32, width: Width, value: u32)
        requires { IsTrue (is_aligned address width) }
        ensures { self.new ≡ stored_in address width value self.old }
    {
        let place = (address % 32 / 4) as usize;
        self.words[place] = merge(self.words[place], address % 4, width, value);
        self.dirty = true;
    }
}

/// The empty sets of a cache of so many bytes.
fn empty_slots(alloc: Global, bytes: u32) -> Result<Vec<Option<Held>>, NoMemory>
    ensures { IfOk result (λ slots. slots.items ≡ opened bytes) }
{
    match vec![in alloc; None; (bytes / 32) as usize] {
        Ok(slots) => Ok(slots),
        Err(_) => Err(NoMemory),
    }
}
