//! A board with its images: the class of each line and the place of each address.

ghost use Rattle.std.specs.Prelude.{◌≡◌, ◌≢◌, ℕ, ◌/◌, ◌<◌, ◌^◌, None, Some, IfOk, OnOk, IfErr, IfSome, MatchOption, ◌∷◌, length, map, unwrap_or, option_map, option_and_then, slice_get};
ghost use Rattle.std.specs.List.{All};
ghost use Rattle.n2_parts.specs.Parts as parts;
ghost use Rattle.n2_parts.specs.Valid.{IsValid};
ghost use Rattle.n2_board.specs.AddressMap as spec;
ghost use Rattle.n2_board.specs.Classes as classes;
ghost use Rattle.n2_board.specs.Places as places;
ghost use Rattle.n2_board.specs.Placement.{open_fault};

use crate::classes::{Class, LineZone, line_zones};
use crate::finder::Finder;
use crate::placement::{OpenFault, first_placement_fault};
use crate::places::{Place, Places};
use crate::segments::{LoadedSegment, loaded_segments};
use crate::table::{ClassTable, class_found, class_table};
use n2_elf::Image;
use n2_parts::{Board, MemoryRow, PartKind, Span, copy_memories, line_place};
use n2_text::Items;
use n2_word::NoMemory;
use std::alloc::Global;
use std::marker::Model;

/// A board with its images. Contracts see the lines with their classes and the bytes with their
/// places, of which the first that holds a line or an address counts. A line of a memory is looked
/// up in a table by its place; what is outside of the memories is searched for in sorted tables.
#[derive(Debug, Drop)]
pub struct Layout {
    memories: Items<MemoryRow>,
    classes: ClassTable,
    lines: Vec<LineZone>,
    line_finder: Finder,
    places: Places,
}

impl Model for Layout {
    ghost use Rattle.std.specs.Prelude.{◌≡◌, ◌≢◌, ℕ, ◌/◌, ◌<◌, ◌^◌, IfSome, MatchOption, map, slice_get};
    ghost use Rattle.n2_parts.specs.MemoryLines.{line_count, line_place};
    ghost use Rattle.n2_board.specs.declared.places.Place.TheVariants.{Memory};
    ghost use Rattle.n2_board.specs.AddressMap.{AddressMap};
    ghost use Rattle.n2_board.specs.Classes.{class_in};
    ghost use Rattle.n2_board.specs.Places.{place_in};

    ghost Value = { AddressMap };

    ghost view = { λ l. record { lines = l.lines.items; places = l.places } };

    ghost invariant = { λ l. (line_count l.memories < 2 ^ 32)
        × ((line : ℕ) → IfSome (slice_get l.classes (line_place l.memories line)) (λ class. class ≡ class_in l.lines.items line))
        × ((address : ℕ) → MatchOption (slice_get l.classes (line_place l.memories (address / 32))) (place_in l.places address ≢ Memory) (λ _. place_in l.places address ≡ Memory))
        × (l.line_finder.0 ≡ map (λ zone. zone.lines) l.lines.items) };
}

fn line_spans(alloc: Global, zones: &[LineZone]) -> Result<Vec<Span>, NoMemory>
    ensures { IfOk result (λ spans. spans.items ≡ map (λ zone. zone.lines) zones.now) }
{
    let spans: Result<Vec<Span>, _> = zones.iter().map(|zone| zone.lines).collect(alloc);
    match spans {
        Ok(spans) => Ok(spans),
        Err(_) => Err(NoMemory),
    }
}

/// The layout of a board and segments.
fn index(alloc: Global, board: &Board, segments: &[LoadedSegment]) -> Result<Layout, NoMemory>
    requires valid { IsValid board.now }
    requires cores { All (λ s. s.core < length board.now.core) segments.now }
    ensures lines { IfOk result (λ layout. layout.lines ≡ classes.line_zones board.now segments.now) }
    ensures places { IfOk result (λ layout. layout.places ≡ places.place_zones board.now (PartKind.Memory ∷ parts.devices)) }
{
    let lines = line_zones(alloc, board, segments)?;
    let line_finder = Finder::open(alloc, &line_spans(alloc, &lines)?)?;
    let memories = copy_memories(alloc, board.memory.as_slice())?;
    let classes = class_table(alloc, memories.as_slice(), &line_finder, &lines)?;
    let places = Places::open(alloc, board)?;
    Ok(Layout {
        memories,
        classes,
        lines,
        line_finder,
        places,
    })
}

impl Layout {
    /// The layout of a valid board with one image for each core, or the first thing that does not
    /// fit: a segment that is not inside one memory, a first program counter that is not a multiple
    /// of 4 in a memory, images that share a line, each for the lowest core or pair.
    #[tactic(auto, unfolding(crate::specs::AddressMap::address_map))]
    pub fn open(alloc: Global, board: &Board, images: &[Image]) -> Result<Layout, OpenFault>
        requires valid { IsValid board.now }
        requires images { length images.now ≡ length board.now.core }
        ensures opened { IfOk result (λ layout. layout ≡ spec.address_map board.now images.now) }
        ensures fits { OnOk result (open_fault board.now images.now ≡ None) }
        ensures fault { IfErr result (λ fault. fault ≢ OpenFault.NoMemory → open_fault board.now images.now ≡ Some fault) }
    {
        let segments = loaded_segments(alloc, images)?;
        match first_placement_fault(alloc, board, images, segments.as_slice())? {
            Some(fault) => return Err(fault),
            None => (),
        }
        let layout = index(alloc, board, segments.as_slice())?;
        Ok(layout)
    }

    /// The class of a line, if a memory has it: one look in a table.
    #[inline(always)]
    pub fn memory_class(&self, line: u32) -> Option<Class>
        ensures class { IfSome result (λ class. class ≡ spec.class_of self.now line) }
        ensures memory { (address : ℕ) → address / 32 ≡ line → MatchOption result (spec.place self.now address ≢ Place.Memory) (λ _. spec.place self.now address ≡ Place.Memory) }
    {
        self.classes.get(line_place(self.memories.as_slice(), line))
    }

    /// The class of a line, by the search.
    fn class_searched(&self, line: u32) -> Class
        ensures { result ≡ spec.class_of self.now line }
    {
        let found = self.line_finder.find(u64::from(line));
        class_found(self.lines.as_slice(), found)
    }

    /// The place of an address, by the search.
    pub(crate) fn place_searched(&self, address: u32) -> Place
        ensures { result ≡ spec.place self.now address }
    {
        self.places.find(address)
    }

    /// The class of a line.
    #[inline(always)]
    pub fn class_of(&self, line: u32) -> Class
        ensures { result ≡ spec.class_of self.now line }
    {
        match self.memory_class(line) {
            Some(class) => class,
            None => self.class_searched(line),
        }
    }

    /// The place of an address, whose bit 31 is clear.
    #[inline(always)]
    pub fn place(&self, address: u32) -> Place
        ensures { result ≡ spec.place self.now address }
    {
        match self.memory_class(address / 32) {
            Some(_) => Place::Memory,
            None => self.place_searched(address),
        }
    }
}
