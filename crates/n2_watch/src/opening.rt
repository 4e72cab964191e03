//! What a watch opens with: a record for each line that its core may touch, and the guards that the
//! core owns at the start.

ghost use Rattle.std.specs.Prelude.{◌≡◌, ◌≢◌, ◌↔◌, List, Some, ℕ, ◌+◌, ◌<◌, ◌≤◌, ◌^◌, ◌++◌, [], ◌∷◌, true, false, IfOk, OnOk, IfNone, IfSome, IsTrue, length, slice_set, get_or, ◌*◌, replicate};
ghost use Rattle.n2_parts.specs.MemoryLines.{memory_has, HasLine};
ghost use Rattle.n2_board.specs.AddressMap.{class_of};
ghost use Rattle.std.specs.List.{All};
ghost use Rattle.n2_parts.specs.declared.board.Board.{Board as BoardValue};
ghost use Rattle.n2_parts.specs.Valid.{IsSmall};
ghost use Rattle.n2_parts.specs.declared.board.MemoryRow.{MemoryRow as MemoryValue};
ghost use Rattle.n2_board.specs.Classes.{NamesParts};
ghost use Rattle.n2_board.specs.Guards.{guard_of};
ghost use Rattle.n2_watch.specs.Table.{run_at, slot_for};
ghost use Rattle.n2_watch.specs.Stands.{AreBuilt, IsRecorded, IsPut, grown, begun, put};
ghost use Rattle.n2_watch.specs.Watched.{is_touchable};
ghost use Rattle.n2_watch.specs.Walks.{lower_of};
ghost use Rattle.n2_watch.specs.NextLines.{IsFirst, NoneHas, IsOpen};
ghost use Rattle.n2_watch.specs.Book.{cpuid_of, sets_of, first_holder};
ghost use Rattle.n2_watch.specs.Opened.{is_held, is_held_first, slot_count};

use crate::records::Record;
use crate::runs::Run;
use n2_board::{Board, Class, Layout, MemoryRow, RegionClass, RegionRow};
use n2_word::NoMemory;
use std::alloc::Global;

/// Whether a core may touch a line of a class through its cache.
pub fn is_touchable(core: u32, class: Class) -> bool
    ensures { result ≡ is_touchable core class }
{
    match class {
        Class::Code => true,
        Class::Private(owner) => owner == core,
        Class::Mutex(_) => true,
        Class::Passed(_) => true,
        Class::Uncached => false,
        Class::Absent => false,
    }
}

/// The lower of two lines, of which there may be none.
fn nearer(line: Option<u32>, other: Option<u32>) -> Option<u32>
    ensures { result ≡ lower_of line other }
{
    match line {
        None => other,
        Some(line) => match other {
            None => Some(line),
            Some(other) => Some(if other < line { other } else { line }),
        },
    }
}

/// The first line of a memory from a line on.
fn line_in(row: &MemoryRow, from: u32) -> Option<u32>
    ensures { IsFirst (λ number. memory_has row.now number ≡ false) from result }
{
    let first = row.base / 32;
    let behind = first + row.size / 32;
    if behind <= from || row.size < 32 {
        None
    } else if from < first {
        Some(first)
    } else {
        Some(from)
    }
}

/// The first line of memories from a line on.
pub fn next_line(memories: &[MemoryRow], from: u32) -> Option<u32>
    ensures { IsFirst (λ number. NoneHas memories.now (length memories.now) number) from result }
{
    let mut next = None;
    for row in memories {
        next = nearer(next, line_in(row, from));
    }
    next
}

/// Whether a record goes into a run.
fn joins(run: &Run, at: u32, line: u32, slot: u32) -> bool
    ensures { IsTrue result ↔ ((run.now.first + run.now.count ≡ line) × (run.now.at + run.now.count ≡ at) × (run.now.slot ≡ slot)) }
{
    let count = u64::from(run.count);
    u64::from(run.first) + count == u64::from(line)
        && u64::from(run.at) + count == u64::from(at)
        && run.slot == slot
}

/// One more record in a run.
fn grow(runs: &mut Vec<Run>, k: usize)
    requires within { k < length runs.old.items }
    requires count { (run_at runs.old.items k).count + 1 < 2 ^ 32 }
    ensures { runs.new.items ≡ slice_set runs.old.items k (grown (run_at runs.old.items k)) }
{
    let run = runs[k];
    runs[k] = Run {
        first: run.first,
        count: run.count + 1,
        at: run.at,
        slot: run.slot,
    };
}

/// A run of one record.
fn begin(runs: &mut Vec<Run>, at: u32, line: u32, slot: u32) -> Result<(), NoMemory>
    ensures { OnOk result (runs.new.items ≡ runs.old.items ++ begun at line slot ∷ []) }
{
    runs.push(Run {
        first: line,
        count: 1,
        at,
        slot,
    })?;
    Ok(())
}

/// The record of a line goes into the last run where it follows, and else begins one.
fn put_run(runs: &mut Vec<Run>, at: u32, line: u32, slot: u32) -> Result<(), NoMemory>
    requires { line < 2 ^ 28 }
    ensures { OnOk result (IsPut runs.old.items runs.new.items at line slot) }
{
    let count = runs.len();
    if count > 0 && joins(&runs[count - 1], at, line, slot) {
        grow(runs, count - 1);
        Ok(())
    } else {
        begin(runs, at, line, slot)
    }
}

/// The record of a line.
fn put_record(records: &mut Vec<Record>, line: u32, slot: u32) -> Result<(), NoMemory>
    ensures { OnOk result (records.new.items ≡ put records.old.items line slot) }
{
    records.push(Record {
        line,
        slot,
        first: 0,
        stored: 0,
    })?;
    Ok(())
}

/// The slot of a line's guard.
fn slot_at(layout: &Layout, line: u32) -> u32
    requires { (b : BoardValue) × IsSmall b × NamesParts b (class_of layout.now line) }
    ensures { result ≡ slot_for (guard_of (class_of layout.now line)) }
{
    match layout.class_of(line) {
        Class::Mutex(mutex) => 2 * mutex + 1,
        Class::Passed(region) => 2 * region + 2,
        Class::Code => 0,
        Class::Private(_) => 0,
        Class::Uncached => 0,
        Class::Absent => 0,
    }
}

/// Records with their runs.
#[derive(Debug, Drop)]
pub struct Built {
    pub runs: Vec<Run>,
    pub records: Vec<Record>,
}

impl Built {
    /// The record of one more line, in a slot.
    fn put(&mut self, line: u32, slot: u32) -> Result<(), NoMemory>
        requires line { line < 2 ^ 28 }
        requires few { length self.old.records.items < 2 ^ 28 }
        ensures runs { OnOk result (IsPut self.old.runs.items self.new.runs.items (length self.old.records.items) line slot) }
        ensures records { OnOk result (self.new.records.items ≡ put self.old.records.items line slot) }
    {
        let at = self.records.len() as u32;
        put_run(&mut self.runs, at, line, slot)?;
        put_record(&mut self.records, line, slot)
    }

    /// The record of one more line, where the core may touch it.
    fn put_touchable(&mut self, core: u32, layout: &Layout, line: u32) -> Result<(), NoMemory>
        requires line { line < 2 ^ 28 }
        requires few { length self.old.records.items < 2 ^ 28 }
        requires named { (b : BoardValue) × IsSmall b × ((number : ℕ) → NamesParts b (class_of layout.now number)) }
        ensures { OnOk result ((bound : ℕ) (memories : List MemoryValue) → IsFirst (λ number. NoneHas memories (length memories) number) bound (Some line) → IsOpen core layout.now self.old.runs.items self.old.records.items bound memories → IsOpen core layout.now self.new.runs.items self.new.records.items (line + 1) memories) }
    {
        if is_touchable(core, layout.class_of(line)) {
            let slot = slot_at(layout, line);
            self.put(line, slot)?;
            Ok(())
        } else {
            Ok(())
        }
    }
}

/// How many lines of memories a core may touch.
fn count_touchable(core: u32, memories: &[MemoryRow], layout: &Layout) -> usize {
    let mut count = 0;
    let mut from = 0;
    'lines: while let Some(line) = next_line(memories, from) {
        if is_touchable(core, layout.class_of(line)) {
            count += 1;
        }
        from = line + 1;
    }
    count
}

/// The records of the lines of memories that a core may touch. Room is taken for those alone.
pub fn open_lines(
    alloc: Global,
    core: u32,
    memories: &[MemoryRow],
    layout: &Layout,
) -> Result<Built, NoMemory>
    requires { (b : BoardValue) × IsSmall b × ((number : ℕ) → NamesParts b (class_of layout.now number)) }
    ensures built { IfOk result (λ built. (bound : ℕ) × AreBuilt layout.now built.runs.items built.records.items bound) }
    ensures whole { IfOk result (λ built. (number : ℕ) → HasLine memories.now number → IsTrue (is_touchable core (class_of layout.now number)) → IsRecorded built.records.items number) }
{
    let mut built = Built {
        runs: Vec::new(alloc),
        records: Vec::with_capacity(alloc, count_touchable(core, memories, layout))?,
    };
    let mut from = 0;
    'lines: while let Some(line) = next_line(memories, from) {
        built.put_touchable(core, layout, line)?;
        from = line + 1;
    }
    Ok(built)
}

/// The cpuid of a core.
pub fn cpuid_of(board: &Board, core: u32) -> u32
    ensures { result ≡ cpuid_of board.now core }
{
    match board.core.as_slice().get(core as usize) {
        Some(row) => u32::from(row.cpuid),
        None => 0,
    }
}

/// How many sets the data cache of a core has.
pub fn sets_of(board: &Board, core: u32) -> usize
    ensures { result ≡ sets_of board.now core }
{
    match board.core.as_slice().get(core as usize) {
        Some(row) => (row.dcache / 32) as usize,
        None => 0,
    }
}

/// The slots of the guards of boards, which have at most 64 regions and 32 mutexes.
pub const SLOTS: usize = 129;

/// Whether a core is the first holder of a region.
fn is_held(class: &RegionClass, core: u32) -> bool
    ensures { result ≡ is_held core (first_holder class.now) }
{
    match class {
        RegionClass::Passed { holder, .. } => *holder == core,
        RegionClass::Code => false,
        RegionClass::Private(_) => false,
        RegionClass::Mutex(_) => false,
        RegionClass::Uncached => false,
    }
}

/// Flags that are not set.
fn unset(alloc: Global, count: usize) -> Result<Vec<bool>, NoMemory>
    ensures { IfOk result (λ flags. flags.items ≡ replicate count false) }
{
    Ok(vec![in alloc; false; count]?)
}

/// For each slot whether a core owns its guard at the start: the regions that it holds, and no mutex.
pub fn open_owned(alloc: Global, core: u32, regions: &[RegionRow]) -> Result<Vec<bool>, NoMemory>
    requires { length regions.now ≤ 64 }
    ensures slots { IfOk result (λ owned. length owned.items ≡ slot_count) }
    ensures mutexes { IfOk result (λ owned. (mutex : ℕ) → get_or owned.items (2 * mutex + 1) false ≡ false) }
    ensures regions { IfOk result (λ owned. (region : ℕ) → get_or owned.items (2 * region + 2) false ≡ is_held_first core regions.now region) }
{
    let mut owned = unset(alloc, SLOTS)?;
    for (i, row) in regions.iter().enumerate() {
        owned[2 * i + 2] = is_held(&row.class, core);
    }
    Ok(owned)
}

/// The Pointer registers of mailboxes at the start.
pub fn open_pointers(alloc: Global, count: usize) -> Result<Vec<u32>, NoMemory>
    ensures { IfOk result (λ pointers. pointers.items ≡ replicate count 0) }
{
    Ok(vec![in alloc; 0; count]?)
}
