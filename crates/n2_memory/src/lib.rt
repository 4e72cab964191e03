//! The memories of a board as one list of words, with the images of its cores in them at the start.
#![tactic(auto)]

ghost use Rattle.std.specs.Prelude.{◌≡◌, ◌↔◌, IsTrue};

use n2_parts::{MemoryRow, line_place};
use n2_text::Items;
use n2_word::{Width, extract, line_of, merge};
use std::marker::Model;

pub mod laws;
mod start;

/// The memories of a board, seen as the board's rows and one list of words, eight for each line.
#[derive(Debug, Drop)]
pub struct Memory {
    memories: Items<MemoryRow>,
    words: Vec<u32>,
}

impl Model for Memory {
    ghost use Rattle.n2_memory.specs.Memories.{Contents, IsFull};

    ghost Value = { Contents };

    ghost view = { λ m. record { memories = m.memories; words = m.words.items } };

    ghost invariant = { λ m. IsFull (record { memories = m.memories; words = m.words.items }) };
}

impl Memory {
    ghost use Rattle.n2_word.specs.Words.{is_aligned};
    ghost use Rattle.n2_word.specs.Lines.{line as line_number};
    ghost use Rattle.n2_parts.specs.MemoryLines.{HasLine};
    ghost use Rattle.n2_memory.specs.Memories.{IsFull, line_at, with_line, read_at, written_at};

    /// Whether one of the memories has a line.
    #[inline(always)]
    pub fn has_line(&self, line: u32) -> bool
        ensures { IsTrue result ↔ HasLine self.now.memories line }
    {
        8 * (line_place(self.memories.as_slice(), line) as usize) < self.words.len()
    }

    /// The eight words of a line.
    #[inline(always)]
    pub fn line(&self, line: u32) -> [u32; 8]
        requires { HasLine self.now.memories line }
        ensures { result ≡ line_at self.now line }
    {
        let at = 8 * line_place(self.memories.as_slice(), line) as usize;
        let mut words = [0u32; 8];
        words.copy_from_slice(&self.words[at..at + 8]);
        words
    }

    /// Puts the eight words of a line.
    #[inline(always)]
    pub fn put_line(&mut self, line: u32, words: &[u32; 8])
        requires { HasLine self.old.memories line }
        ensures line { self.new ≡ with_line self.old line words.now }
        ensures full { IsFull self.new }
    {
        let at = 8 * line_place(self.memories.as_slice(), line) as usize;
        self.words[at..at + 8].copy_from_slice(words);
    }

    /// The byte, half or word at an address, zero-extended.
    #[inline(always)]
    pub fn read(&self, address: u32, width: Width) -> u32
        requires inside { HasLine self.now.memories (line_number address) }
        requires aligned { IsTrue (is_aligned address width) }
        ensures { result ≡ read_at self.now address width }
    {
        let first = 8 * line_place(self.memories.as_slice(), line_of(address)) as usize;
        let at = first + (address % 32 / 4) as usize;
        extract(self.words[at], address % 4, width)
    }

    /// The word at an address.
    #[inline(always)]
    pub fn word(&self, address: u32) -> u32
        requires inside { HasLine self.now.memories (line_number address) }
        requires aligned { IsTrue (is_aligned address Width.Word) }
        ensures { result ≡ read_at self.now address Width.Word }
    {
        self.read(address, Width::Word)
    }

    /// Stores the low bits of a value at an address.
    #[inline(always)]
    pub fn write(&mut self, address: u32, width: Width, value: u32)
        requires inside { HasLine self.old.memories (line_number address) }
        requires aligned { IsTrue (is_aligned address width) }
        ensures stored { self.new ≡ written_at self.old address width value }
        ensures full { IsFull self.new }
    {
        let first = 8 * line_place(self.memories.as_slice(), line_of(address)) as usize;
        let at = first + (address % 32 / 4) as usize;
        self.words[at] = merge(self.words[at], address % 4, width, value);
    }
}
