//! The classes of lines, by the regions of a board and the segments that are loaded.

ghost use Rattle.std.specs.Prelude.{◌≡◌, ◌<◌, ◌^◌, ◌++◌, [], ◌∷◌, IfOk, OnOk, length};
ghost use Rattle.n2_parts.specs.Valid.{IsSmall};
ghost use Rattle.n2_board.specs.Classes as spec;

use crate::segments::{LoadedSegment, lines_of};
use n2_parts::{Board, RegionClass, RegionRow, Span};
use n2_word::NoMemory;
use std::alloc::Global;

/// Who may touch a line: everyone as code; one core; the owner of a mutex; who holds a region;
/// everyone, but past the caches; no one. Parts are named by their number.
#[derive(Clone, Copy, Debug, PartialEq, Eq)]
pub enum Class {
    Code,
    Private(u32),
    Mutex(u32),
    Passed(u32),
    Uncached,
    Absent,
}

/// Lines of one class.
#[derive(Clone, Copy, Debug, PartialEq, Eq)]
pub struct LineZone {
    pub lines: Span,
    pub class: Class,
}

fn class_of_region(i: u32, class: &RegionClass) -> Class
    ensures { result ≡ spec.class_of_region i class.now }
{
    match class {
        RegionClass::Code => Class::Code,
        RegionClass::Private(core) => Class::Private(*core),
        RegionClass::Mutex(mutex) => Class::Mutex(*mutex),
        RegionClass::Passed { .. } => Class::Passed(i),
        RegionClass::Uncached => Class::Uncached,
    }
}

fn region_zone(i: u32, row: &RegionRow) -> LineZone
    ensures { result ≡ spec.region_zone i row.now }
{
    LineZone {
        lines: lines_of(row.base, row.size),
        class: class_of_region(i, &row.class),
    }
}

/// The lines of regions.
fn region_zones(alloc: Global, rows: &[RegionRow]) -> Result<Vec<LineZone>, NoMemory>
    requires { length rows.now < 2 ^ 32 }
    ensures { IfOk result (λ zones. zones.items ≡ spec.region_zones 0 rows.now) }
{
    let mut out = Vec::new(alloc);
    let mut i = 0;
    for row in rows {
        out.push(region_zone(i, row))?;
        i += 1;
    }
    Ok(out)
}

/// The lines of segments that are code.
fn code_zones(alloc: Global, segments: &[LoadedSegment]) -> Result<Vec<LineZone>, NoMemory>
    ensures { IfOk result (λ zones. zones.items ≡ spec.code_zones segments.now) }
{
    let zones: Result<Vec<LineZone>, _> = segments
        .iter()
        .filter(|s| s.code)
        .map(|s| LineZone {
            lines: s.lines,
            class: Class::Code,
        })
        .collect(alloc);
    match zones {
        Ok(zones) => Ok(zones),
        Err(_) => Err(NoMemory),
    }
}

/// The lines of segments that are a core's own.
fn own_zones(alloc: Global, segments: &[LoadedSegment]) -> Result<Vec<LineZone>, NoMemory>
    ensures { IfOk result (λ zones. zones.items ≡ spec.own_zones segments.now) }
{
    let zones: Result<Vec<LineZone>, _> = segments
        .iter()
        .filter(|s| s.own)
        .map(|s| LineZone {
            lines: s.lines,
            class: Class::Private(s.core),
        })
        .collect(alloc);
    match zones {
        Ok(zones) => Ok(zones),
        Err(_) => Err(NoMemory),
    }
}

fn extend(zones: &mut Vec<LineZone>, more: &[LineZone]) -> Result<(), NoMemory>
    ensures { OnOk result (zones.new.items ≡ zones.old.items ++ more.now) }
{
    match zones.extend_from_slice(more) {
        Ok(()) => Ok(()),
        Err(_) => Err(NoMemory),
    }
}

/// The lines of a board with their classes.
#[tactic(auto, unfolding(crate::specs::Classes::line_zones))]
pub fn line_zones(
    alloc: Global,
    board: &Board,
    segments: &[LoadedSegment],
) -> Result<Vec<LineZone>, NoMemory>
    requires { IsSmall board.now }
    ensures { IfOk result (λ zones. zones.items ≡ spec.line_zones board.now segments.now) }
{
    let mut zones = region_zones(alloc, board.region.as_slice())?;
    extend(&mut zones, &code_zones(alloc, segments)?)?;
    extend(&mut zones, &own_zones(alloc, segments)?)?;
    Ok(zones)
}
