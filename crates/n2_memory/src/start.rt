//! The memories at the start.

ghost use Rattle.std.specs.Prelude.{◌≡◌, ◌+◌, ◌*◌, ◌%◌, ◌^◌, ◌<◌, ◌≤◌, IfOk, length, drop};
ghost use Rattle.std.specs.List.{AllByRecursion};
ghost use Rattle.n2_elf.specs.Reading.{HoldsItsBytes, IsSized};
ghost use Rattle.n2_parts.specs.MemoryLines.{AreWholeLines};
ghost use Rattle.n2_parts.specs.MemoryLines as lines;
ghost use Rattle.n2_parts.specs.Valid.{IsValid};
ghost use Rattle.n2_memory.specs.Memories.{IsFull};
ghost use Rattle.n2_memory.specs.Start as spec;
ghost use Rattle.n2_memory.specs.Start.{stored, bytes_of_segment, loaded, segments_of, IsInside, AreInside};

use crate::Memory;
use n2_elf::{Image, Segment};
use n2_parts::{Board, MemoryRow, copy_memories, line_count};
use n2_text::Items;
use n2_word::{NoMemory, Width, byte_at, word_at};
use std::alloc::Global;

/// Memories of zeros.
#[tactic(auto, unfolding(crate::specs::Start::zeros))]
fn zeros(alloc: Global, memories: &[MemoryRow]) -> Result<Memory, NoMemory>
    requires { lines.line_count memories.now ≤ 2 ^ 23 }
    ensures zeros { IfOk result (λ memory. memory ≡ spec.zeros memories.now) }
    ensures full { IfOk result (λ memory. IsFull memory) }
{
    let count = 8 * line_count(memories) as usize;
    let memories = copy_memories(alloc, memories)?;
    match vec![in alloc; 0u32; count] {
        Ok(words) => Ok(Memory { memories, words }),
        Err(_) => Err(NoMemory),
    }
}

/// Stores the bytes of a segment from one place up to another, one by one.
fn store_bytes(memory: &mut Memory, segment: &Segment, from: u32, to: u32)
    requires full { IsFull memory.old }
    requires whole { AreWholeLines memory.old.memories }
    requires inside { IsInside memory.old.memories segment.now }
    requires below { segment.now.at + segment.now.size ≤ 2 ^ 31 }
    requires holds { HoldsItsBytes segment.now }
    requires order { from ≤ to }
    requires within { to ≤ segment.now.size }
    ensures left { stored memory.new (segment.now.at + to) (drop to (bytes_of_segment segment.now)) ≡ stored memory.old (segment.now.at + from) (drop from (bytes_of_segment segment.now)) }
    ensures memories { memory.new.memories ≡ memory.old.memories }
    ensures full { IsFull memory.new }
{
    let bytes = segment.bytes.as_slice();
    for i in from..to {
        let byte = byte_at(bytes, i as usize);
        memory.write(segment.at + i, Width::Byte, u32::from(byte));
    }
}

/// Stores so many whole words of a segment from a place on, whose address is a multiple of 4.
fn store_words(memory: &mut Memory, segment: &Segment, from: u32, count: u32)
    requires full { IsFull memory.old }
    requires whole { AreWholeLines memory.old.memories }
    requires inside { IsInside memory.old.memories segment.now }
    requires below { segment.now.at + segment.now.size ≤ 2 ^ 31 }
    requires holds { HoldsItsBytes segment.now }
    requires aligned { 0 < count → (segment.now.at + from) % 4 ≡ 0 }
    requires within { from + 4 * count ≤ segment.now.size }
    ensures left { stored memory.new (segment.now.at + (from + 4 * count)) (drop (from + 4 * count) (bytes_of_segment segment.now)) ≡ stored memory.old (segment.now.at + from) (drop from (bytes_of_segment segment.now)) }
    ensures memories { memory.new.memories ≡ memory.old.memories }
    ensures full { IsFull memory.new }
{
    let bytes = segment.bytes.as_slice();
    for i in 0..count {
        let place = from + 4 * i;
        memory.write(
            segment.at + place,
            Width::Word,
            word_at(bytes, place as usize),
        );
    }
}

/// Stores a segment, by words where it can.
fn store(memory: &mut Memory, segment: &Segment)
    requires full { IsFull memory.old }
    requires whole { AreWholeLines memory.old.memories }
    requires inside { IsInside memory.old.memories segment.now }
    requires holds { HoldsItsBytes segment.now }
    ensures stored { memory.new ≡ stored memory.old segment.now.at (bytes_of_segment segment.now) }
    ensures memories { memory.new.memories ≡ memory.old.memories }
    ensures full { IsFull memory.new }
{
    let lead = ((4 - segment.at % 4) % 4).min(segment.size);
    let count = (segment.size - lead) / 4;
    store_bytes(memory, segment, 0, lead);
    store_words(memory, segment, lead, count);
    store_bytes(memory, segment, lead + 4 * count, segment.size);
}

/// Stores segments, one after another.
#[tactic(auto, unfolding(crate::specs::Start::loaded))]
fn store_all(memory: &mut Memory, segments: &[Segment])
    requires full { IsFull memory.old }
    requires whole { AreWholeLines memory.old.memories }
    requires inside { AllByRecursion (λ s. IsInside memory.old.memories s) segments.now }
    requires hold { AllByRecursion HoldsItsBytes segments.now }
    ensures loaded { memory.new ≡ loaded memory.old segments.now }
    ensures memories { memory.new.memories ≡ memory.old.memories }
    ensures full { IsFull memory.new }
{
    for segment in segments {
        store(memory, segment);
    }
}

/// Stores the segments of images, one image after another.
#[tactic(auto, unfolding(crate::specs::Start::loaded, crate::specs::Start::segments_of))]
fn store_images(memory: &mut Memory, images: &[Image])
    requires full { IsFull memory.old }
    requires whole { AreWholeLines memory.old.memories }
    requires inside { AreInside memory.old.memories images.now }
    requires sized { AllByRecursion IsSized images.now }
    ensures loaded { memory.new ≡ loaded memory.old (segments_of images.now) }
    ensures memories { memory.new.memories ≡ memory.old.memories }
    ensures full { IsFull memory.new }
{
    for image in images {
        store_all(memory, image.segments.as_slice());
    }
}

impl Memory {
    /// The memories of a valid board with the segments of images in them: zeros, and over them each
    /// segment's bytes, and behind these zeros up to its size, one segment after another. Nothing
    /// else of a `Memory` takes memory.
    #[tactic(auto, unfolding(crate::specs::Start::start, crate::specs::Start::zeros))]
    pub fn open(alloc: Global, board: &Board, images: &[Image]) -> Result<Memory, NoMemory>
        requires valid { IsValid board.now }
        requires inside { AreInside board.now.memory images.now }
        requires sized { AllByRecursion IsSized images.now }
        ensures start { IfOk result (λ memory. memory ≡ spec.start board.now.memory images.now) }
        ensures memories { IfOk result (λ memory. memory.memories ≡ board.now.memory) }
        ensures full { IfOk result (λ memory. IsFull memory) }
    {
        let mut memory = zeros(alloc, board.memory.as_slice())?;
        store_images(&mut memory, images);
        Ok(memory)
    }
}
