//! Notes of what a core did.

ghost use Rattle.std.specs.Prelude.{◌≡◌, ◌↔◌, ℕ, Bool, List, ◌∷◌, ◌+◌, ◌<◌, ◌^◌, None, Some, IsTrue, false, get_or, length, slice_set};
ghost use Rattle.n2_word.specs.declared.Width.{Width as WidthValue};
ghost use Rattle.n2_word.specs.Lines.{line as line_number, without_bypass};
ghost use Rattle.n2_elf.specs.declared.image.Image.{Image};
ghost use Rattle.n2_insn.specs.declared.DataOp.{DataOp as DataOpValue};
ghost use Rattle.n2_parts.specs.declared.board.Board.{Board as BoardValue};
ghost use Rattle.n2_board.specs.declared.guards.Guard.{Guard as GuardValue};
ghost use Rattle.n2_board.specs.AddressMap.{AddressMap, place};
ghost use Rattle.n2_watch.specs.declared.past.Past.{Past as PastEvent};
ghost use Rattle.n2_watch.specs.declared.past.Past.TheVariants.{Touch, Clean};
ghost use Rattle.n2_watch.specs.declared.access.Access.TheVariants as accesses;
ghost use Rattle.n2_watch.specs.Book.{Book, knowledge, region_at};
ghost use Rattle.n2_watch.specs.Discipline as rules;
ghost use Rattle.n2_watch.specs.Noted.{IsNotedOnce, IsOwnerNoted, IsGuardOwned, IsRegionOwned, IsPointerNoted, IsSideWritten, IsKindWritten, IsWritten, IsReceived, word_access};
ghost use Rattle.n2_watch.specs.Shapes.{IsLetPast, accessed, past_accessed};
ghost use Rattle.n2_watch.specs.Table.{slot_of};
ghost use Rattle.n2_watch.specs.Watched.{StandsFor, IsWatchNoted, IsGuardOf};
ghost use Rattle.n2_watch.specs.World.{World};

use crate::records::{Records, slot_of};
use crate::watch::{NONE_TOUCHED, Watch};
use n2_board::{Board, Class, Guard, Layout, Part, PartKind, Place};
use n2_insn::DataOp;
use n2_word::line_of;

/// What a core did: a load or store of a line through its cache, or a data cache operation; a store
/// past the cache, with whether it took effect; a load past it, with whether it took a message and
/// the Pointer of that.
#[derive(Clone, Copy, Debug, PartialEq, Eq)]
pub enum Done {
    Touched {
        line: u32,
        store: bool,
    },
    Cleaned {
        op: DataOp,
        address: u32,
    },
    Wrote {
        address: u32,
        value: u32,
        took: bool,
    },
    Received {
        address: u32,
        took: bool,
        pointer: u32,
    },
}

/// Whether a guard is one of the board.
fn has_guard(board: &Board, guard: Guard) -> bool
    ensures { IsTrue result ↔ IsGuardOf board.now guard }
{
    match guard {
        Guard::Mutex(mutex) => (mutex as usize) < board.mutex.len(),
        Guard::Passed(region) => (region as usize) < board.region.len(),
    }
}

/// The passed region that a Pointer lies in.
fn region_at(layout: &Layout, pointer: u32) -> Option<u32>
    ensures { result ≡ region_at layout.now pointer }
{
    match layout.class_of(line_of(pointer)) {
        Class::Passed(region) => Some(region),
        Class::Code => None,
        Class::Private(_) => None,
        Class::Mutex(_) => None,
        Class::Uncached => None,
        Class::Absent => None,
    }
}

/// Whether a slot is owned.
fn is_owned(owned: &[bool], slot: u64) -> bool
    ensures { result ≡ get_or owned.now slot false }
{
    match owned.get(slot as usize) {
        Some(owned) => *owned,
        None => false,
    }
}

/// A slot is owned from now on, or no more.
fn set_owned(owned: &mut [bool], slot: u64, owns: bool)
    ensures { owned.new ≡ slice_set owned.old slot owns }
{
    if (slot as usize) < owned.len() {
        owned[slot as usize] = owns;
    }
}

/// A guard is owned from now on, or no more: the event where that changes.
fn note_owner(records: &mut Records, guard: Guard, before: bool, after: bool)
    requires slot { slot_of guard < length records.old.got }
    requires clock { records.old.clock + 1 < 2 ^ 64 }
    ensures { IsOwnerNoted guard before after records.old records.new }
{
    if after && !before {
        records.note_got(slot_of(guard));
    } else {
        records.note_other();
    }
}

impl Watch {
    /// Notes a load or store of a line that is not as one that was noted.
    #[inline(always)]
    fn note_another(&mut self, place: u32, line: u32, store: bool)
        requires { self.old.table.clock + 1 < 2 ^ 64 }
        ensures once { IsNotedOnce self.old self.new }
        ensures noted { IsWatchNoted self.old self.new }
        ensures stands { (b : BoardValue) (map : AddressMap) (book : Book) (past : List PastEvent) (address : ℕ) (width : WidthValue) → StandsFor b map self.old.core self.old book past → line ≡ line_number address → rules.breach b map (knowledge b book self.old.core past) (accesses.Cached address store) width ≡ None → StandsFor b map self.old.core self.new book (Touch line store ∷ past) }
    {
        n2_board::laws::in_memory();
        self.records.note_touch_at(place, line, store);
        let at = (line % 4) as usize;
        self.touched[at] = u64::from(line) + 1;
        self.stored[at] = store;
    }

    /// Notes a load or store of a line through the cache, while the clock has room. The access was
    /// judged before and passed, with the place where the record of its line is looked for first. What
    /// is as one that was noted changes no record.
    #[inline(always)]
    pub fn note_touched_at(&mut self, place: u32, line: u32, store: bool)
        requires { self.old.table.clock + 1 < 2 ^ 64 }
        ensures once { IsNotedOnce self.old self.new }
        ensures noted { IsWatchNoted self.old self.new }
        ensures stands { (b : BoardValue) (map : AddressMap) (book : Book) (past : List PastEvent) (address : ℕ) (width : WidthValue) → StandsFor b map self.old.core self.old book past → line ≡ line_number address → rules.breach b map (knowledge b book self.old.core past) (accesses.Cached address store) width ≡ None → StandsFor b map self.old.core self.new book (Touch line store ∷ past) }
    {
        if self.is_again(line, store) {
            self.records.note_other();
        } else {
            self.note_another(place, line, store);
        }
    }

    /// A data cache operation.
    fn note_cleaned(&mut self, op: DataOp, address: u32)
        requires { self.old.table.clock + 1 < 2 ^ 64 }
        ensures noted { IsWatchNoted self.old self.new }
        ensures stands { (b : BoardValue) (map : AddressMap) (book : Book) (past : List PastEvent) → StandsFor b map self.old.core self.old book past → StandsFor b map self.old.core self.new book (Clean op address ∷ past) }
    {
        self.records.note_clean(op, address);
        self.touched = NONE_TOUCHED;
    }

    /// A guard is owned from now on, or no more.
    fn note_guard(&mut self, guard: Guard, owns: bool)
        requires clock { self.old.table.clock + 1 < 2 ^ 64 }
        requires slots { (guard : GuardValue) → IsGuardOf self.old.board guard → slot_of guard < length self.old.table.got }
        ensures once { IsNotedOnce self.old self.new }
        ensures noted { IsGuardOwned guard owns self.old self.new }
    {
        if has_guard(&self.board, guard) {
            let slot = slot_of(guard);
            let before = is_owned(self.owned.as_slice(), slot);
            note_owner(&mut self.records, guard, before, owns);
            set_owned(self.owned.as_mut_slice(), slot, owns);
            self.touched = NONE_TOUCHED;
        }
    }

    /// A passed region, if there is one, is owned from now on, or no more.
    fn note_region(&mut self, region: Option<u32>, owns: bool)
        requires clock { self.old.table.clock + 1 < 2 ^ 64 }
        requires slots { (guard : GuardValue) → IsGuardOf self.old.board guard → slot_of guard < length self.old.table.got }
        ensures once { IsNotedOnce self.old self.new }
        ensures noted { IsRegionOwned region owns self.old self.new }
    {
        match region {
            None => {}
            Some(region) => self.note_guard(Guard::Passed(region), owns),
        }
    }

    /// The Pointer register of a mailbox is written.
    fn note_pointer(&mut self, mailbox: u32, value: u32)
        ensures once { IsNotedOnce self.old self.new }
        ensures noted { IsPointerNoted mailbox value self.old self.new }
    {
        if (mailbox as usize) < self.pointers.len() {
            self.pointers[mailbox as usize] = value;
        }
        self.touched = NONE_TOUCHED;
    }

    /// The Pointer register of a mailbox.
    fn pointer_of(&self, mailbox: u32) -> u32
        ensures { result ≡ get_or self.now.pointers mailbox 0 }
    {
        match self.pointers.get(mailbox as usize) {
            Some(pointer) => *pointer,
            None => 0,
        }
    }

    /// A write of a mailbox that takes effect.
    fn note_side(&mut self, layout: &Layout, mailbox: u32, offset: u32, value: u32)
        requires clock { self.old.table.clock + 1 < 2 ^ 64 }
        requires slots { (guard : GuardValue) → IsGuardOf self.old.board guard → slot_of guard < length self.old.table.got }
        ensures once { IsNotedOnce self.old self.new }
        ensures noted { IsKindWritten layout.now PartKind.Mailbox mailbox offset value self.old self.new }
    {
        if offset == 0 {
            let region = region_at(layout, self.pointer_of(mailbox));
            self.note_region(region, false);
        } else if offset == 1 {
            self.note_pointer(mailbox, value);
        }
    }

    /// A write of a mutex that takes effect.
    fn note_mutex(&mut self, layout: &Layout, mutex: u32, offset: u32, value: u32)
        requires clock { self.old.table.clock + 1 < 2 ^ 64 }
        requires slots { (guard : GuardValue) → IsGuardOf self.old.board guard → slot_of guard < length self.old.table.got }
        ensures once { IsNotedOnce self.old self.new }
        ensures noted { IsKindWritten layout.now PartKind.Mutex mutex offset value self.old self.new }
    {
        if offset == 0 {
            self.note_guard(Guard::Mutex(mutex), value % 0x1_0000 != 0);
        }
    }

    /// A write of a device that takes effect.
    fn note_device(&mut self, layout: &Layout, part: Part, offset: u32, value: u32)
        requires clock { self.old.table.clock + 1 < 2 ^ 64 }
        requires slots { (guard : GuardValue) → IsGuardOf self.old.board guard → slot_of guard < length self.old.table.got }
        ensures once { IsNotedOnce self.old self.new }
        ensures noted { IsKindWritten layout.now part.kind part.index offset value self.old self.new }
    {
        match part.kind {
            PartKind::Mutex => self.note_mutex(layout, part.index, offset, value),
            PartKind::Mailbox => self.note_side(layout, part.index, offset, value),
            PartKind::Top => {}
            PartKind::Memory => {}
            PartKind::Core => {}
            PartKind::Timer => {}
            PartKind::Uart => {}
            PartKind::Region => {}
            PartKind::Dump => {}
            PartKind::Script => {}
        }
    }

    /// A store past the cache.
    fn note_wrote(&mut self, layout: &Layout, address: u32, value: u32, took: bool)
        requires clock { self.old.table.clock + 1 < 2 ^ 64 }
        requires slots { (guard : GuardValue) → IsGuardOf self.old.board guard → slot_of guard < length self.old.table.got }
        ensures once { IsNotedOnce self.old self.new }
        ensures noted { IsWritten layout.now (place layout.now (without_bypass address)) value took self.old self.new }
    {
        if !took {
            return;
        }
        match layout.place(address % 0x8000_0000) {
            Place::Memory => {}
            Place::Device { part, offset } => self.note_device(layout, part, offset, value),
            Place::Nothing => {}
        }
    }

    /// A load past the cache.
    fn note_received(&mut self, layout: &Layout, took: bool, pointer: u32)
        requires clock { self.old.table.clock + 1 < 2 ^ 64 }
        requires slots { (guard : GuardValue) → IsGuardOf self.old.board guard → slot_of guard < length self.old.table.got }
        ensures once { IsNotedOnce self.old self.new }
        ensures noted { IsReceived layout.now took pointer self.old self.new }
    {
        if took {
            self.note_region(region_at(layout, pointer), true);
        }
    }

    /// Notes what the core did, while the clock has room. The access was judged before and passed.
    #[inline(always)]
    pub fn note(&mut self, layout: &Layout, done: &Done)
        requires clock { self.old.table.clock + 1 < 2 ^ 64 }
        requires slots { (guard : GuardValue) → IsGuardOf self.old.board guard → slot_of guard < length self.old.table.got }
        ensures once { IsNotedOnce self.old self.new }
        ensures touch_noted { (line : ℕ) (store : Bool) → done.now ≡ Done.Touched line store → IsWatchNoted self.old self.new }
        ensures clean_noted { (op : DataOpValue) (address : ℕ) → done.now ≡ Done.Cleaned op address → IsWatchNoted self.old self.new }
        ensures touched { (b : BoardValue) (map : AddressMap) (book : Book) (past : List PastEvent) (line : ℕ) (store : Bool) (address : ℕ) (width : WidthValue) → done.now ≡ Done.Touched line store → StandsFor b map self.old.core self.old book past → line ≡ line_number address → rules.breach b map (knowledge b book self.old.core past) (accesses.Cached address store) width ≡ None → StandsFor b map self.old.core self.new book (Touch line store ∷ past) }
        ensures cleaned { (b : BoardValue) (map : AddressMap) (book : Book) (past : List PastEvent) (op : DataOpValue) (address : ℕ) → done.now ≡ Done.Cleaned op address → StandsFor b map self.old.core self.old book past → StandsFor b map self.old.core self.new book (Clean op address ∷ past) }
        ensures wrote { (b : BoardValue) (images : List Image) (w : World) (past : List PastEvent) (address value : ℕ) (took : Bool) → done.now ≡ Done.Wrote address value took → IsLetPast b images layout.now self.old.core w past (word_access address (Some value)) → took ≡ (accessed b layout.now self.old.core w (word_access address (Some value))).reply.took → StandsFor b layout.now self.old.core self.old w.book past → StandsFor b layout.now self.old.core self.new (accessed b layout.now self.old.core w (word_access address (Some value))).world.book (past_accessed b layout.now self.old.core w past (word_access address (Some value))) }
        ensures received { (b : BoardValue) (images : List Image) (w : World) (past : List PastEvent) (address : ℕ) (took : Bool) (pointer : ℕ) → done.now ≡ Done.Received address took pointer → IsLetPast b images layout.now self.old.core w past (word_access address None) → took ≡ (accessed b layout.now self.old.core w (word_access address None)).reply.took → pointer ≡ (accessed b layout.now self.old.core w (word_access address None)).reply.pointer → StandsFor b layout.now self.old.core self.old w.book past → StandsFor b layout.now self.old.core self.new (accessed b layout.now self.old.core w (word_access address None)).world.book (past_accessed b layout.now self.old.core w past (word_access address None)) }
    {
        match done {
            Done::Touched { line, store } => self.note_touched_at(0, *line, *store),
            Done::Cleaned { op, address } => self.note_cleaned(*op, *address),
            Done::Wrote {
                address,
                value,
                took,
            } => self.note_wrote(layout, *address, *value, *took),
            Done::Received {
                address: _,
                took,
                pointer,
            } => self.note_received(layout, *took, *pointer),
        }
    }
}
