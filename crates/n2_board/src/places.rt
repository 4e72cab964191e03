//! What stands at an address: the memories and devices of a board.

ghost use Rattle.std.specs.Prelude.{◌≡◌, ◌++◌, [], ◌∷◌, IfOk, OnOk, map, unwrap_or, option_map, option_and_then, slice_get};
ghost use Rattle.n2_parts.specs.Parts as parts;
ghost use Rattle.n2_parts.specs.Rules as rules;
ghost use Rattle.n2_parts.specs.Valid.{IsSmall};
ghost use Rattle.n2_board.specs.Places as spec;

use crate::finder::Finder;
use n2_parts::{Board, IN_PLACES, Part, PartKind, Span, count_of, spans_of};
use n2_word::NoMemory;
use std::alloc::Global;
use std::marker::Model;

/// What an address names: a byte of a memory; a byte of a word of a device, by the word's number;
/// nothing. The words of a mailbox's sending side are 0 to 3, those of its receiving side 4 to 7.
#[derive(Clone, Copy, Debug, PartialEq, Eq)]
pub enum Place {
    Memory,
    Device { part: Part, offset: u32 },
    Nothing,
}

/// Bytes of a memory, or words of a device, of which the first has that number.
#[derive(Clone, Copy, Debug, PartialEq, Eq)]
pub enum Area {
    InMemory,
    Words { part: Part, first: u8 },
}

/// Bytes of one area.
#[derive(Clone, Copy, Debug, PartialEq, Eq)]
pub struct PlaceZone {
    pub bytes: Span,
    pub area: Area,
}

fn area_of(part: Part, first: u8) -> Area
    ensures { result ≡ spec.area_of part first part.kind }
{
    match part.kind {
        PartKind::Memory => Area::InMemory,
        _ => Area::Words { part, first },
    }
}

/// The places of a board, with a sorted table to search them in. Contracts see what stands at which
/// bytes, of which the first that holds an address counts.
#[derive(Debug, Drop)]
pub struct Places {
    zones: Vec<PlaceZone>,
    finder: Finder,
}

impl Model for Places {
    ghost use Rattle.std.specs.Prelude.{◌≡◌, List, map};
    ghost use Rattle.n2_board.specs.declared.places.PlaceZone.{PlaceZone as Zone};

    ghost Value = { List Zone };

    ghost view = { λ p. p.zones.items };

    ghost invariant = { λ p. p.finder.0 ≡ map (λ zone. zone.bytes) p.zones.items };
}

/// Adds the places of a part.
fn put_part(out: &mut Vec<PlaceZone>, board: &Board, part: Part) -> Result<(), NoMemory>
    ensures { OnOk result (out.new.items ≡ out.old.items ++ spec.zones_at part (rules.spans_of board.now part)) }
{
    match spans_of(board, part) {
        None => Ok(()),
        Some(spans) => {
            let first = PlaceZone {
                bytes: spans.first,
                area: area_of(part, 0),
            };
            let second = PlaceZone {
                bytes: spans.second,
                area: area_of(part, 4),
            };
            out.push(first)?;
            out.push(second)?;
            Ok(())
        }
    }
}

/// Adds the places of the parts of an array.
fn put_kind(
    out: &mut Vec<PlaceZone>,
    board: &Board,
    kind: PartKind,
    count: u32,
) -> Result<(), NoMemory>
    ensures { OnOk result (out.new.items ≡ out.old.items ++ spec.kind_zones board.now kind 0 count) }
{
    for index in 0..count {
        put_part(out, board, Part { kind, index })?;
    }
    Ok(())
}

/// Adds the places of the parts of some arrays.
fn put_kinds(out: &mut Vec<PlaceZone>, board: &Board, kinds: &[PartKind]) -> Result<(), NoMemory>
    requires { IsSmall board.now }
    ensures { OnOk result (out.new.items ≡ out.old.items ++ spec.place_zones board.now kinds.now) }
{
    for kind in kinds {
        put_kind(out, board, *kind, count_of(board, *kind) as u32)?;
    }
    Ok(())
}

/// What stands at which bytes: memories and devices.
fn place_zones(alloc: Global, board: &Board) -> Result<Vec<PlaceZone>, NoMemory>
    requires { IsSmall board.now }
    ensures { IfOk result (λ zones. zones.items ≡ spec.place_zones board.now (PartKind.Memory ∷ parts.devices)) }
{
    let mut out = Vec::new(alloc);
    put_kinds(&mut out, board, &IN_PLACES)?;
    Ok(out)
}

fn place_spans(alloc: Global, zones: &[PlaceZone]) -> Result<Vec<Span>, NoMemory>
    ensures { IfOk result (λ spans. spans.items ≡ map (λ zone. zone.bytes) zones.now) }
{
    let spans: Result<Vec<Span>, _> = zones.iter().map(|zone| zone.bytes).collect(alloc);
    match spans {
        Ok(spans) => Ok(spans),
        Err(_) => Err(NoMemory),
    }
}

fn place_at(area: Area, from: u64, address: u32) -> Place
    ensures { result ≡ spec.place_at area from address }
{
    match area {
        Area::InMemory => Place::Memory,
        Area::Words { part, first } => {
            let words = u64::from(address).saturating_sub(from) / 4;
            let offset = u32::from(first) + words as u32;
            Place::Device { part, offset }
        }
    }
}

/// The place of an address in the zone of that number.
fn place_found(zones: &[PlaceZone], address: u32, found: Option<usize>) -> Place
    ensures { result ≡ unwrap_or (option_map (λ zone. spec.place_at zone.area zone.bytes.from address) (option_and_then (λ i. slice_get zones.now i) found)) Place.Nothing }
{
    match found {
        None => Place::Nothing,
        Some(i) => match zones.get(i) {
            None => Place::Nothing,
            Some(zone) => place_at(zone.area, zone.bytes.from, address),
        },
    }
}

impl Places {
    /// The places of a board's memories and devices. NoMemory is the only error.
    pub fn open(alloc: Global, board: &Board) -> Result<Places, NoMemory>
        requires { IsSmall board.now }
        ensures { IfOk result (λ places. places ≡ spec.places_of board.now) }
    {
        let zones = place_zones(alloc, board)?;
        let finder = Finder::open(alloc, &place_spans(alloc, &zones)?)?;
        Ok(Places { zones, finder })
    }

    /// The place of an address, whose bit 31 is clear.
    pub fn find(&self, address: u32) -> Place
        ensures { result ≡ spec.place_in self.now address }
    {
        let found = self.finder.find(u64::from(address));
        place_found(self.zones.as_slice(), address, found)
    }
}
