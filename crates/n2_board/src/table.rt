//! The class of each line of some memories, in one list.

ghost use Rattle.std.specs.Prelude.{◌≡◌, ℕ, ◌+◌, ◌/◌, ◌<◌, ◌^◌, ◌++◌, [], ◌∷◌, IfOk, OnOk, map, option_map, option_and_then, slice_get, unwrap_or};
ghost use Rattle.std.specs.List.{All, flat_map, range_with_len};
ghost use Rattle.n2_parts.specs.declared.board.Board.{Board as BoardValue};
ghost use Rattle.n2_parts.specs.Valid.{IsSmall};
ghost use Rattle.n2_parts.specs.MemoryLines.{line_count};
ghost use Rattle.n2_board.specs.Classes as spec;

use crate::classes::{Class, LineZone};
use crate::finder::Finder;
use n2_parts::MemoryRow;
use n2_word::NoMemory;
use std::alloc::Global;
use std::marker::Model;

/// The class of a line in two bytes: a board has at most 64 parts of a kind that a class can name.
#[derive(Clone, Copy, Debug)]
enum Entry {
    Code,
    Private(u8),
    Mutex(u8),
    Passed(u8),
    Uncached,
    Absent,
}

/// Classes, each in two bytes. Contracts see the list of classes.
#[derive(Debug, Drop)]
pub struct ClassTable {
    entries: Vec<Entry>,
}

impl Model for ClassTable {
    ghost use Rattle.std.specs.Prelude.{List, map};
    ghost use Rattle.n2_board.specs.declared.classes.Class.{Class as ClassValue};
    ghost use Rattle.n2_board.specs.declared.classes.Class.TheVariants as classes;
    ghost use Rattle.n2_board.specs.declared.table.Entry.TheVariants as short;

    ghost Value = { List ClassValue };

    ghost view = { λ t. map (λ entry. elim entry [
      | short.Code ↦ classes.Code
      | short.Private core ↦ classes.Private core
      | short.Mutex mutex ↦ classes.Mutex mutex
      | short.Passed region ↦ classes.Passed region
      | short.Uncached ↦ classes.Uncached
      | short.Absent ↦ classes.Absent
    ]) t.entries.items };
}

impl ClassTable {
    /// No classes, and room for so many.
    fn with_capacity(alloc: Global, count: u32) -> Result<ClassTable, NoMemory>
        ensures { IfOk result (λ table. table ≡ []) }
    {
        match Vec::with_capacity(alloc, count as usize) {
            Ok(entries) => Ok(ClassTable { entries }),
            Err(_) => Err(NoMemory),
        }
    }

    /// Adds a class of a line of a board.
    #[inline(always)]
    fn push(&mut self, class: Class) -> Result<(), NoMemory>
        requires { (b : BoardValue) × IsSmall b × spec.NamesParts b class }
        ensures { OnOk result (self.new ≡ self.old ++ class ∷ []) }
    {
        let entry = match class {
            Class::Code => Entry::Code,
            Class::Private(core) => Entry::Private(core as u8),
            Class::Mutex(mutex) => Entry::Mutex(mutex as u8),
            Class::Passed(region) => Entry::Passed(region as u8),
            Class::Uncached => Entry::Uncached,
            Class::Absent => Entry::Absent,
        };
        self.entries.push(entry)?;
        Ok(())
    }

    /// The class at a place, if there are so many.
    #[inline(always)]
    pub fn get(&self, place: u32) -> Option<Class>
        ensures { result ≡ slice_get self.now place }
    {
        match self.entries.get(place as usize)? {
            Entry::Code => Some(Class::Code),
            Entry::Private(core) => Some(Class::Private(u32::from(*core))),
            Entry::Mutex(mutex) => Some(Class::Mutex(u32::from(*mutex))),
            Entry::Passed(region) => Some(Class::Passed(u32::from(*region))),
            Entry::Uncached => Some(Class::Uncached),
            Entry::Absent => Some(Class::Absent),
        }
    }
}

/// The class of the zone of that number.
pub fn class_found(zones: &[LineZone], found: Option<usize>) -> Class
    ensures { result ≡ unwrap_or (option_map (λ zone. zone.class) (option_and_then (λ i. slice_get zones.now i) found)) Class.Absent }
{
    match found {
        None => Class::Absent,
        Some(i) => match zones.get(i) {
            None => Class::Absent,
            Some(zone) => zone.class,
        },
    }
}

/// Adds the classes of the lines of one memory.
fn put_memory(
    table: &mut ClassTable,
    row: &MemoryRow,
    finder: &Finder,
    zones: &[LineZone],
) -> Result<(), NoMemory>
    requires finder { finder.now.0 ≡ map (λ zone. zone.lines) zones.now }
    requires parts { (b : BoardValue) × IsSmall b × All (λ zone. spec.NamesParts b zone.class) zones.now }
    ensures { OnOk result (table.new ≡ table.old ++ map (λ line. spec.class_in zones.now line) (range_with_len (row.now.base / 32) (row.now.size / 32))) }
{
    let first = row.base / 32;
    let mut passed = 0;
    for line in first..first + row.size / 32 {
        let (n, found) = finder.find_from(passed, u64::from(line));
        table.push(class_found(zones, found))?;
        passed = n;
    }
    Ok(())
}

/// The classes of the lines of memories, in the order of the memories. The lines are gone over
/// beside the bounds of the finder, in time linear in both.
pub fn class_table(
    alloc: Global,
    memories: &[MemoryRow],
    finder: &Finder,
    zones: &[LineZone],
) -> Result<ClassTable, NoMemory>
    requires few { line_count memories.now < 2 ^ 32 }
    requires finder { finder.now.0 ≡ map (λ zone. zone.lines) zones.now }
    requires parts { (b : BoardValue) × IsSmall b × All (λ zone. spec.NamesParts b zone.class) zones.now }
    ensures { IfOk result (λ table. table ≡ flat_map (λ row. map (λ line. spec.class_in zones.now line) (range_with_len (row.base / 32) (row.size / 32))) memories.now) }
{
    let mut table = ClassTable::with_capacity(alloc, n2_parts::line_count(memories))?;
    for row in memories {
        put_memory(&mut table, row, finder, zones)?;
    }
    Ok(table)
}
