//! The records of a core's lines: what its past events say of each, in constant time.

ghost use Rattle.std.specs.Prelude.{◌≡◌, ◌↔◌, ℕ, ◌+◌, ◌<◌, ◌≤◌, ◌^◌, ◌==◌, ◌&&◌, List, ◌∷◌, IsTrue, IfNone, IfOk, IfSome, length, get_or, replicate, is_none};
ghost use Rattle.std.specs.Int.{is_power_of_two};
ghost use Rattle.n2_word.specs.Lines.{line as line_number, set_for};
ghost use Rattle.n2_insn.specs.declared.DataOp.{DataOp as DataOpValue};
ghost use Rattle.n2_board.specs.declared.guards.Guard.{Guard as GuardValue};
ghost use Rattle.n2_board.specs.AddressMap.{AddressMap};
ghost use Rattle.n2_watch.specs.declared.past.Past.{Past as PastEvent};
ghost use Rattle.n2_watch.specs.declared.past.Past.TheVariants.{Touch, Clean, Got, Gave};
ghost use Rattle.n2_watch.specs.Past.{covers, guards, dirty, stale, lowest};
ghost use Rattle.n2_watch.specs.Table.{slot_of, opened_table, record_at, run_at, is_dirty, is_stale, after_touch, after_clean_line, after_clean_set, after_got, after_other};
ghost use Rattle.n2_watch.specs.Stands.{AreRuns, IsUnrecorded, IsRecorded, IsNoted, LinesStand};
ghost use Rattle.n2_watch.specs.Walks.{IsLowest, lower_of, is_walked, InPlaces, RunPlaces, InRuns};

use crate::opening::Built;
use crate::runs::{Run, up_to};
use n2_board::Guard;
use n2_insn::DataOp;
use n2_word::{NoMemory, line_of};
use std::alloc::Global;
use std::marker::Model;

/// What is kept of a line: its number, the slot of its guard, the clock of its first Touch since
/// its last Clean by address, and that of its last storing one.
#[derive(Clone, Copy, Debug, PartialEq, Eq)]
pub struct Record {
    pub line: u32,
    pub slot: u32,
    pub first: u64,
    pub stored: u64,
}

/// The records of a core's lines, with the clock of the last Clean by index and the number of dirty
/// lines for each set, and the clock of the last Got for each slot.
#[derive(Debug, Drop)]
pub struct Records {
    runs: Vec<Run>,
    records: Vec<Record>,
    cleaned: Vec<u64>,
    counts: Vec<u64>,
    got: Vec<u64>,
    clock: u64,
}

impl Model for Records {
    ghost use Rattle.std.specs.Prelude.{◌≡◌, ℕ, ◌<◌, ◌≤◌, ◌^◌, IsTrue, length, get_or};
    ghost use Rattle.std.specs.Int.{is_power_of_two};
    ghost use Rattle.n2_watch.specs.Table.{Table};

    ghost Value = { Table };

    ghost view = { λ w. record { runs = w.runs.items; records = w.records.items; cleaned = w.cleaned.items; counts = w.counts.items; got = w.got.items; clock = w.clock } };

    ghost invariant = { λ w. IsTrue (is_power_of_two (length w.cleaned.items))
        × (0 < length w.cleaned.items)
        × (length w.counts.items ≡ length w.cleaned.items)
        × ((set : ℕ) → get_or w.counts.items set 0 ≤ w.clock) };
}

/// The slot of a guard.
#[inline(always)]
pub fn slot_of(guard: Guard) -> u64
    ensures { result ≡ slot_of guard }
{
    match guard {
        Guard::Mutex(mutex) => 2 * u64::from(mutex) + 1,
        Guard::Passed(region) => 2 * u64::from(region) + 2,
    }
}

/// The lower of two lines, of which there may be none.
fn lower_of(lowest: Option<u32>, other: Option<u32>) -> Option<u32>
    ensures { result ≡ lower_of lowest other }
{
    match lowest {
        None => other,
        Some(line) => match other {
            None => Some(line),
            Some(other) => Some(if other < line { other } else { line }),
        },
    }
}

/// Whether the record at a place is of a line.
#[inline(always)]
fn is_at(records: &[Record], i: usize, line: u32) -> bool
    ensures { IsTrue result ↔ ((i < length records.now) × ((record_at records.now i).line ≡ line)) }
{
    i < records.len() && records[i].line == line
}

/// The place of a line's record, among records with their runs.
#[inline(always)]
fn find_in(runs: &[Run], records: &[Record], line: u32) -> Option<usize>
    ensures found { IfSome result (λ i. (i < length records.now) × ((record_at records.now i).line ≡ line)) }
    ensures missing { AreRuns runs.now records.now → IfNone result (IsUnrecorded records.now line) }
{
    let behind = up_to(runs, line);
    if behind == 0 {
        return None;
    }
    let run = runs[behind - 1];
    let i = run.at as usize + (line - run.first) as usize;
    if is_at(records, i, line) {
        Some(i)
    } else {
        None
    }
}

fn zeros(alloc: Global, count: usize) -> Result<Vec<u64>, NoMemory>
    ensures { IfOk result (λ zeros. zeros.items ≡ replicate count 0) }
{
    Ok(vec![in alloc; 0; count]?)
}

impl Records {
    /// Records with nothing past, for a data cache of so many sets and so many slots of guards.
    pub fn open(alloc: Global, built: Built, sets: usize, slots: usize) -> Result<Records, NoMemory>
        requires power { IsTrue (is_power_of_two sets) }
        requires some { 0 < sets }
        ensures { IfOk result (λ records. records ≡ opened_table built.runs.items built.records.items sets slots) }
    {
        let cleaned = zeros(alloc, sets)?;
        let counts = zeros(alloc, sets)?;
        let got = zeros(alloc, slots)?;
        let Built { runs, records } = built;
        Ok(Records {
            runs,
            records,
            cleaned,
            counts,
            got,
            clock: 0,
        })
    }

    /// The set of a line. Their number is a power of two.
    #[inline(always)]
    #[tactic(auto, using(n2_word::proofs::Masks::mask_is_rest))]
    fn set_of(&self, line: u32) -> usize
        ensures set { result ≡ set_for line (length self.now.cleaned) }
        ensures below { result < length self.now.cleaned }
    {
        line as usize & (self.cleaned.len() - 1)
    }

    /// The clock of the last Clean by index of a line's set.
    #[inline(always)]
    fn cleaned_for(&self, line: u32) -> u64
        ensures { result ≡ get_or self.now.cleaned (set_for line (length self.now.cleaned)) 0 }
    {
        self.cleaned[self.set_of(line)]
    }

    #[inline(always)]
    fn got_of(&self, slot: u32) -> u64
        ensures { result ≡ get_or self.now.got slot 0 }
    {
        match self.got.get(slot as usize) {
            Some(got) => *got,
            None => 0,
        }
    }

    /// Whether the line of a record is dirty.
    #[inline(always)]
    fn is_dirty(&self, kept: &Record) -> bool
        ensures { result ≡ is_dirty self.now.cleaned kept.now }
    {
        self.cleaned_for(kept.line) < kept.stored
    }

    /// Whether the line of a record is stale.
    #[inline(always)]
    fn is_stale(&self, kept: &Record) -> bool
        ensures { result ≡ is_stale self.now.cleaned self.now.got kept.now }
    {
        self.cleaned_for(kept.line) < kept.first && kept.first < self.got_of(kept.slot)
    }

    /// The place of a line's record.
    #[inline(always)]
    fn find(&self, line: u32) -> Option<usize>
        ensures found { IfSome result (λ i. (i < length self.now.records) × ((record_at self.now.records i).line ≡ line)) }
        ensures missing { AreRuns self.now.runs self.now.records → IfNone result (IsUnrecorded self.now.records line) }
    {
        find_in(self.runs.as_slice(), self.records.as_slice(), line)
    }

    /// Whether the line of a record is dirty, and of a set where one is given.
    fn is_walked(&self, kept: &Record, set: Option<usize>) -> bool
        ensures { result ≡ is_walked self.now.cleaned set kept.now }
    {
        match set {
            None => self.is_dirty(kept),
            Some(set) => self.set_of(kept.line) == set && self.is_dirty(kept),
        }
    }

    /// The lowest dirty line of the records at some places, of a set where one is given.
    fn lowest_in(&self, from: usize, to: usize, set: Option<usize>) -> Option<u32>
        requires { to ≤ length self.now.records }
        ensures { IsLowest (InPlaces self.now.cleaned set self.now.records from to) self.now.records result }
    {
        let mut lowest = None;
        if from >= to {
            return None;
        }
        for i in from..to {
            let kept = self.records[i];
            if self.is_walked(&kept, set) {
                lowest = lower_of(lowest, Some(kept.line));
            }
        }
        lowest
    }

    /// A run.
    fn run(&self, k: usize) -> Run
        requires { k < length self.now.runs }
        ensures { result ≡ run_at self.now.runs k }
    {
        self.runs[k]
    }

    /// The lowest dirty line of a run.
    fn lowest_in_run(&self, k: usize) -> Option<u32>
        requires { k < length self.now.runs }
        ensures { IsLowest (RunPlaces self.now.cleaned self.now.records (run_at self.now.runs k)) self.now.records result }
    {
        let run = self.run(k);
        let from = run.at as usize;
        let to = (from + run.count as usize).min(self.records.len());
        self.lowest_in(from, to, None)
    }

    /// The lowest dirty line of a slot in one more run.
    fn lowest_with_run(&self, k: usize, slot: u64, lowest: Option<u32>) -> Option<u32>
        requires { k < length self.now.runs }
        ensures { IsLowest (InRuns self.now.runs slot k self.now.cleaned self.now.records) self.now.records lowest → IsLowest (InRuns self.now.runs slot (k + 1) self.now.cleaned self.now.records) self.now.records result }
    {
        if u64::from(self.run(k).slot) == slot {
            lower_of(lowest, self.lowest_in_run(k))
        } else {
            lowest
        }
    }

    /// The lowest dirty line of a slot: a walk over the runs of the slot.
    fn lowest_in_runs(&self, slot: u64) -> Option<u32>
        ensures { IsLowest (InRuns self.now.runs slot (length self.now.runs) self.now.cleaned self.now.records) self.now.records result }
    {
        let mut lowest = None;
        for k in 0..self.runs.len() {
            lowest = self.lowest_with_run(k, slot, lowest);
        }
        lowest
    }

    /// A Touch of the line of a record.
    #[inline(always)]
    fn touch(&mut self, i: usize, store: bool)
        requires line { i < length self.old.records }
        requires clock { self.old.clock + 1 < 2 ^ 64 }
        ensures { self.new ≡ after_touch self.old i store }
    {
        let record = self.records[i];
        let set = self.set_of(record.line);
        let cleaned = self.cleaned[set];
        if store && record.stored <= cleaned {
            self.counts[set] += 1;
        }
        self.clock += 1;
        self.records[i] = Record {
            line: record.line,
            slot: record.slot,
            first: if cleaned < record.first {
                record.first
            } else {
                self.clock
            },
            stored: if store { self.clock } else { record.stored },
        };
    }

    /// A Clean of the line of a record.
    fn clean_line(&mut self, i: usize)
        requires line { i < length self.old.records }
        requires clock { self.old.clock + 1 < 2 ^ 64 }
        ensures { self.new ≡ after_clean_line self.old i }
    {
        let record = self.records[i];
        let set = self.set_of(record.line);
        if self.cleaned[set] < record.stored {
            self.counts[set] = self.counts[set].saturating_sub(1);
        }
        self.clock += 1;
        self.records[i] = Record {
            line: record.line,
            slot: record.slot,
            first: 0,
            stored: 0,
        };
    }

    /// A Clean of all lines of a line's set.
    fn clean_set(&mut self, line: u32)
        requires { self.old.clock + 1 < 2 ^ 64 }
        ensures { self.new ≡ after_clean_set self.old (set_for line (length self.old.cleaned)) }
    {
        let set = self.set_of(line);
        self.clock += 1;
        self.cleaned[set] = self.clock;
        self.counts[set] = 0;
    }

    /// A Got of the guard of a slot.
    fn get_slot(&mut self, slot: usize)
        requires slot { slot < length self.old.got }
        requires clock { self.old.clock + 1 < 2 ^ 64 }
        ensures { self.new ≡ after_got self.old slot }
    {
        self.clock += 1;
        self.got[slot] = self.clock;
    }

    /// Whether the clock has room for one more note.
    #[inline(always)]
    pub fn has_room(&self) -> bool
        ensures { IsTrue result ↔ self.now.clock + 1 < 2 ^ 64 }
    {
        self.clock < u64::MAX
    }

    /// A note that changes no record.
    #[inline(always)]
    fn pass(&mut self)
        requires { self.old.clock + 1 < 2 ^ 64 }
        ensures { self.new ≡ after_other self.old }
    {
        self.clock += 1;
    }
}

/// What records say of the past events that they stand for.
impl Records {
    /// The place of a line's record, unless the line is stale. A line without a record is not, and
    /// its place says nothing. A place is where a note looks first, so its lower 32 bits do.
    #[inline(always)]
    pub fn place_unless_stale(&self, line: u32) -> Option<u32>
        ensures { (map : AddressMap) (past : List PastEvent) → LinesStand map self.now past → is_none result ≡ stale map (length self.now.cleaned) past line }
    {
        match self.find(line) {
            Some(i) => {
                if self.is_stale(&self.records[i]) {
                    None
                } else {
                    Some((i & 0xffff_ffff) as u32)
                }
            }
            None => Some(0),
        }
    }

    /// Whether a line is dirty.
    #[inline(always)]
    fn is_line_dirty(&self, line: u32) -> bool
        ensures { (map : AddressMap) (past : List PastEvent) → LinesStand map self.now past → result ≡ dirty (length self.now.cleaned) past line }
    {
        match self.find(line) {
            Some(i) => self.is_dirty(&self.records[i]),
            None => false,
        }
    }

    /// The lowest dirty line of the guard of a slot.
    fn lowest_of_slot(&self, slot: u64) -> Option<u32>
        ensures { (map : AddressMap) (past : List PastEvent) (guard : GuardValue) → slot ≡ slot_of guard → LinesStand map self.now past → result ≡ lowest (λ number. dirty (length self.now.cleaned) past number && guards map guard number) past }
    {
        self.lowest_in_runs(slot)
    }

    /// The lowest dirty line of a guard.
    pub fn lowest_of_guard(&self, guard: Guard) -> Option<u32>
        ensures { (map : AddressMap) (past : List PastEvent) → LinesStand map self.now past → result ≡ lowest (λ number. dirty (length self.now.cleaned) past number && guards map guard number) past }
    {
        self.lowest_of_slot(slot_of(guard))
    }

    /// How many lines of a line's set are dirty.
    fn dirty_in_set(&self, line: u32) -> u64
        ensures { result ≡ get_or self.now.counts (set_for line (length self.now.cleaned)) 0 }
    {
        self.counts[self.set_of(line)]
    }

    /// The lowest dirty line of a line's set, by a walk.
    fn lowest_in_set(&self, line: u32) -> Option<u32>
        ensures { IsLowest (InPlaces self.now.cleaned (Some (set_for line (length self.now.cleaned))) self.now.records 0 (length self.now.records)) self.now.records result }
    {
        self.lowest_in(0, self.records.len(), Some(self.set_of(line)))
    }

    /// The lowest dirty line of a line's set: a walk over all records where the set has one.
    fn lowest_of_set(&self, line: u32) -> Option<u32>
        ensures { (map : AddressMap) (past : List PastEvent) → LinesStand map self.now past → result ≡ lowest (λ number. dirty (length self.now.cleaned) past number && set_for line (length self.now.cleaned) == set_for number (length self.now.cleaned)) past }
    {
        if self.dirty_in_set(line) == 0 {
            None
        } else {
            self.lowest_in_set(line)
        }
    }

    /// The line, if it is dirty.
    fn lowest_of_line(&self, line: u32) -> Option<u32>
        ensures { (map : AddressMap) (past : List PastEvent) → LinesStand map self.now past → result ≡ lowest (λ number. dirty (length self.now.cleaned) past number && line == number) past }
    {
        if self.is_line_dirty(line) {
            Some(line)
        } else {
            None
        }
    }

    /// The lowest dirty line that a data cache operation covers.
    pub fn lowest_covered(&self, op: DataOp, address: u32) -> Option<u32>
        ensures { (map : AddressMap) (past : List PastEvent) → LinesStand map self.now past → result ≡ lowest (λ number. dirty (length self.now.cleaned) past number && covers (length self.now.cleaned) op address number) past }
    {
        match op {
            DataOp::Initd | DataOp::Flushd => self.lowest_of_set(line_of(address)),
            DataOp::Initda | DataOp::Flushda => self.lowest_of_line(line_of(address)),
        }
    }
}

/// Notes of events. The clock counts them.
impl Records {
    /// A Touch of a line: its record is searched for.
    fn note_touch(&mut self, line: u32, store: bool)
        requires { self.old.clock + 1 < 2 ^ 64 }
        ensures noted { IsNoted self.old self.new }
        ensures stands { (map : AddressMap) (past : List PastEvent) → IsRecorded self.old.records line → LinesStand map self.old past → LinesStand map self.new (Touch line store ∷ past) }
    {
        match self.find(line) {
            Some(i) => self.touch(i, store),
            None => self.pass(),
        }
    }

    /// A Touch of a line, whose record may be at a place.
    #[inline(always)]
    pub fn note_touch_at(&mut self, place: u32, line: u32, store: bool)
        requires { self.old.clock + 1 < 2 ^ 64 }
        ensures noted { IsNoted self.old self.new }
        ensures stands { (map : AddressMap) (past : List PastEvent) → IsRecorded self.old.records line → LinesStand map self.old past → LinesStand map self.new (Touch line store ∷ past) }
    {
        if is_at(self.records.as_slice(), place as usize, line) {
            self.touch(place as usize, store);
        } else {
            self.note_touch(line, store);
        }
    }

    /// A Clean of a line.
    fn note_clean_line(&mut self, line: u32)
        requires { self.old.clock + 1 < 2 ^ 64 }
        ensures noted { IsNoted self.old self.new }
        ensures stands { (map : AddressMap) (past : List PastEvent) (op : DataOpValue) (address : ℕ) → line ≡ line_number address → ((sets other : ℕ) → covers sets op address other ≡ (line_number address == other)) → LinesStand map self.old past → LinesStand map self.new (Clean op address ∷ past) }
    {
        match self.find(line) {
            Some(i) => self.clean_line(i),
            None => self.pass(),
        }
    }

    /// A Clean of a line's set.
    fn note_clean_set(&mut self, line: u32)
        requires { self.old.clock + 1 < 2 ^ 64 }
        ensures noted { IsNoted self.old self.new }
        ensures stands { (map : AddressMap) (past : List PastEvent) (op : DataOpValue) (address : ℕ) → line ≡ line_number address → ((sets other : ℕ) → covers sets op address other ≡ (set_for (line_number address) sets == set_for other sets)) → LinesStand map self.old past → LinesStand map self.new (Clean op address ∷ past) }
    {
        self.clean_set(line);
    }

    /// A data cache operation.
    pub fn note_clean(&mut self, op: DataOp, address: u32)
        requires { self.old.clock + 1 < 2 ^ 64 }
        ensures noted { IsNoted self.old self.new }
        ensures stands { (map : AddressMap) (past : List PastEvent) → LinesStand map self.old past → LinesStand map self.new (Clean op address ∷ past) }
    {
        let line = line_of(address);
        match op {
            DataOp::Initd => self.note_clean_set(line),
            DataOp::Initda => self.note_clean_line(line),
            DataOp::Flushd => self.note_clean_set(line),
            DataOp::Flushda => self.note_clean_line(line),
        }
    }

    /// A guard that is owned from now on.
    pub fn note_got(&mut self, slot: u64)
        requires slot { slot < length self.old.got }
        requires clock { self.old.clock + 1 < 2 ^ 64 }
        ensures noted { IsNoted self.old self.new }
        ensures stands { (map : AddressMap) (past : List PastEvent) (guard : GuardValue) → slot ≡ slot_of guard → LinesStand map self.old past → LinesStand map self.new (Got guard ∷ past) }
    {
        self.get_slot(slot as usize);
    }

    /// A guard that is owned no more, no event, or a touch that changes no record.
    #[inline(always)]
    pub fn note_other(&mut self)
        requires { self.old.clock + 1 < 2 ^ 64 }
        ensures noted { IsNoted self.old self.new }
        ensures gave { (map : AddressMap) (past : List PastEvent) (guard : GuardValue) → LinesStand map self.old past → LinesStand map self.new (Gave guard ∷ past) }
        ensures other { (map : AddressMap) (past : List PastEvent) → LinesStand map self.old past → LinesStand map self.new past }
    {
        self.pass();
    }
}
