//! What a core knows of the discipline, and the judge of its accesses.

ghost use Rattle.std.specs.Prelude.{◌≡◌, ◌≢◌, ◌↔◌, ◌==◌, ◌&&◌, IsTrue, ◌+◌, ◌^◌, ℕ, Bool, List, ◌<◌, Some, None, Ok, Err, false, option_map, get_or, slice_get, length, IfOk, []};
ghost use Rattle.std.specs.List.{list_any};
ghost use Rattle.n2_word.specs.declared.Width.{Width as WidthValue};
ghost use Rattle.n2_word.specs.Lines.{line as line_number, without_bypass};
ghost use Rattle.n2_parts.specs.declared.stops.Kind.TheVariants as kinds;
ghost use Rattle.n2_board.specs.declared.places.Place.TheVariants as places;
ghost use Rattle.n2_board.specs.declared.guards.Guard.{Guard as GuardValue};
ghost use Rattle.n2_board.specs.declared.guards.Guard.TheVariants as guard_kinds;
ghost use Rattle.n2_board.specs.Access.{allows, memory_target, data_target, fetch_violation};
ghost use Rattle.n2_board.specs.AddressMap.{AddressMap, class_of, place};
ghost use Rattle.n2_board.specs.Guards.{guard_of, passed_region};
ghost use Rattle.n2_watch.specs.declared.past.Past.{Past as PastEvent};
ghost use Rattle.n2_watch.specs.Past.{covers, guards, dirty, lowest};
ghost use Rattle.n2_watch.specs.Judged.{breach_of, IsRefusedAt};
ghost use Rattle.n2_watch.specs.declared.access.Access.TheVariants as accesses;
ghost use Rattle.n2_watch.specs.Table.{slot_of};
ghost use Rattle.n2_watch.specs.Stands.{LinesStand};
ghost use Rattle.n2_watch.specs.Discipline as rules;
ghost use Rattle.n2_parts.specs.declared.board.Board.{Board as BoardValue};
ghost use Rattle.n2_watch.specs.Book.{Book, start_book, knowledge};
ghost use Rattle.n2_watch.specs.Watched.{IsMapOf, StandsFor, known, no_place, is_again, broken_at, address_of};

use crate::access::{Access, Broken, Judged};
use crate::opening::{SLOTS, cpuid_of, open_lines, open_owned, open_pointers, sets_of};
use crate::records::{Records, slot_of};
use n2_board::{
    Board, Class, Direction, Guard, Kind, Layout, MailboxRow, Part, PartKind, RegionClass, Route,
    Target, Violation,
};
use n2_insn::DataOp;
use n2_word::{NoMemory, Width, line_of};
use std::alloc::Global;
use std::marker::Model;

/// What a core knows of the discipline by its own events and replies.
#[derive(Debug, Drop)]
pub struct Watch {
    pub(crate) board: Board,
    core: u32,
    cpuid: u32,
    pub(crate) records: Records,
    pub(crate) owned: Vec<bool>,
    pub(crate) pointers: Vec<u32>,
    pub(crate) touched: [u64; 4],
    pub(crate) stored: [bool; 4],
}

/// No line was touched.
pub(crate) const NONE_TOUCHED: [u64; 4] = [0; 4];
/// Stands for no place of a record.
const NO_PLACE: u32 = u32::MAX;

impl Model for Watch {
    ghost use Rattle.n2_watch.specs.Watched.{Watched};

    ghost Value = { Watched };

    ghost view = { λ w. record { board = w.board; core = w.core; cpuid = w.cpuid; table = w.records; owned = w.owned.items; pointers = w.pointers.items; touched = w.touched; stored = w.stored } };
}

/// The guard that a class names.
#[inline(always)]
fn guard_of(class: Class) -> Option<Guard>
    ensures { result ≡ guard_of class }
{
    match class {
        Class::Mutex(mutex) => Some(Guard::Mutex(mutex)),
        Class::Passed(region) => Some(Guard::Passed(region)),
        Class::Code => None,
        Class::Private(_) => None,
        Class::Uncached => None,
        Class::Absent => None,
    }
}

#[inline(always)]
fn direction(store: bool) -> Direction
    ensures { result ≡ rules.direction store }
{
    if store {
        Direction::Store
    } else {
        Direction::Load
    }
}

/// Whether a class lets a core load or store a line through its cache.
#[inline(always)]
fn lets(class: Class, core: u32, store: bool) -> bool
    ensures { result ≡ allows class core Route.Cached (rules.direction store) }
{
    match class {
        Class::Code => !store,
        Class::Private(owner) => owner == core,
        Class::Mutex(_) => true,
        Class::Passed(_) => true,
        Class::Uncached => false,
        Class::Absent => false,
    }
}

/// A refusal by a rule.
#[inline(always)]
fn refused(kind: Kind, address: u32, line: u32) -> Judged
    ensures address { IsRefusedAt address result }
    ensures breach { breach_of result ≡ Some (rules.Breaks kind line) }
{
    Judged::Refused(Broken {
        kind,
        address,
        line,
    })
}

/// The refusal of a load or store through the cache, if it is refused.
#[inline(always)]
fn refusal(judged: Judged) -> Option<Broken>
    ensures { (address : ℕ) → IsRefusedAt address judged → result ≡ broken_at address (breach_of judged) }
{
    match judged {
        Judged::Passed(_) => None,
        Judged::Refused(broken) => Some(broken),
        Judged::Stray => None,
    }
}

/// The refusal that a line is to be flushed, if there is one.
fn unflushed(address: u32, lowest: Option<u32>) -> Option<Broken>
    ensures { result ≡ broken_at address (option_map (λ number. rules.Breaks kinds.Flush number) lowest) }
{
    match lowest {
        Some(line) => Some(Broken {
            kind: Kind::Flush,
            address,
            line,
        }),
        None => None,
    }
}

/// The region that a class says is passed on.
fn passed_region(class: Class) -> Option<u32>
    ensures { result ≡ passed_region class }
{
    match class {
        Class::Passed(region) => Some(region),
        Class::Code => None,
        Class::Private(_) => None,
        Class::Mutex(_) => None,
        Class::Uncached => None,
        Class::Absent => None,
    }
}

fn any_listed(mailboxes: &[u32], mailbox: u32) -> bool
    ensures { result ≡ list_any (λ listed. listed == mailbox) mailboxes.now }
{
    mailboxes.iter().any(|listed| *listed == mailbox)
}

/// Whether a region is passed on by a mailbox.
fn class_lists(class: &RegionClass, mailbox: u32) -> bool
    ensures { result ≡ rules.class_lists class.now mailbox }
{
    match class {
        RegionClass::Passed { mailboxes, .. } => { any_listed(mailboxes.as_slice(), mailbox) }
        RegionClass::Code => false,
        RegionClass::Private(_) => false,
        RegionClass::Mutex(_) => false,
        RegionClass::Uncached => false,
    }
}

impl Watch {
    /// The watch of a core of a board with a layout, with nothing past.
    pub fn open(alloc: Global, core: u32, board: &Board, layout: &Layout) -> Result<Watch, NoMemory>
        requires core { core < length board.now.core }
        requires map { IsMapOf board.now layout.now }
        ensures core { IfOk result (λ watch. watch.core ≡ core) }
        ensures clock { IfOk result (λ watch. watch.table.clock ≡ 0) }
        ensures stands { IfOk result (λ watch. StandsFor board.now layout.now core watch (start_book board.now) []) }
    {
        n2_parts::laws::valid_boards();
        n2_board::laws::classes();
        let built = open_lines(alloc, core, board.memory.as_slice(), layout)?;
        let records = Records::open(alloc, built, sets_of(board, core), SLOTS)?;
        let owned = open_owned(alloc, core, board.region.as_slice())?;
        let pointers = open_pointers(alloc, board.mailbox.len())?;
        let cpuid = cpuid_of(board, core);
        let board = board.copy(alloc)?;
        Ok(Watch {
            board,
            core,
            cpuid,
            records,
            owned,
            pointers,
            touched: NONE_TOUCHED,
            stored: [false; 4],
        })
    }

    /// Whether the clock has room for one more note.
    #[inline(always)]
    pub fn has_room(&self) -> bool
        ensures { IsTrue result ↔ self.now.table.clock + 1 < 2 ^ 64 }
    {
        self.records.has_room()
    }

    /// Whether the core owns a guard.
    #[inline(always)]
    pub fn owns(&self, guard: Guard) -> bool
        ensures { result ≡ get_or self.now.owned (slot_of guard) false }
    {
        match self.owned.get(slot_of(guard) as usize) {
            Some(owned) => *owned,
            None => false,
        }
    }

    /// A line that is stale is refused.
    #[inline(always)]
    fn judge_stale(&self, address: u32, line: u32) -> Judged
        ensures address { IsRefusedAt address result }
        ensures breach { (map : AddressMap) (past : List PastEvent) → LinesStand map self.now.table past → breach_of result ≡ rules.if_stale map (known self.now past) line }
    {
        match self.records.place_unless_stale(line) {
            Some(place) => Judged::Passed(place),
            None => refused(Kind::Invalidate, address, line),
        }
    }

    /// A line whose guard is not owned, or that is stale, is refused.
    #[inline(always)]
    fn judge_line(&self, guard: Option<Guard>, address: u32, line: u32) -> Judged
        ensures address { IsRefusedAt address result }
        ensures breach { (map : AddressMap) (past : List PastEvent) → LinesStand map self.now.table past → breach_of result ≡ rules.line_breach map (known self.now past) guard line }
    {
        match guard {
            None => self.judge_stale(address, line),
            Some(guard) => {
                if self.owns(guard) {
                    self.judge_stale(address, line)
                } else {
                    refused(Kind::Lock, address, line)
                }
            }
        }
    }

    /// A load or store of a line of memory through the cache, by the line's class.
    #[inline(always)]
    fn judge_class(&self, class: Class, address: u32, line: u32, store: bool) -> Judged
        ensures address { IsRefusedAt address result }
        ensures breach { (map : AddressMap) (past : List PastEvent) → LinesStand map self.now.table past → class ≡ class_of map line → breach_of result ≡ rules.cached_breach map (known self.now past) (memory_target (allows class self.now.core Route.Cached (rules.direction store))) line }
    {
        if lets(class, self.core, store) {
            self.judge_line(guard_of(class), address, line)
        } else {
            refused(Kind::Separate, address, line)
        }
    }

    /// A load or store outside of memories through the cache.
    fn judge_outside(&self, layout: &Layout, address: u32, width: Width, store: bool) -> Judged
        requires { place layout.now (without_bypass address) ≢ places.Memory }
        ensures address { IsRefusedAt address result }
        ensures breach { (past : List PastEvent) → breach_of result ≡ rules.cached_breach layout.now (known self.now past) (data_target layout.now self.now.core address width Route.Cached (rules.direction store)) (line_number address) }
    {
        let target = layout.data_target(self.core, address, width, Route::Cached, direction(store));
        match target {
            Err(Violation::Separate) => refused(Kind::Separate, address, line_of(address)),
            Err(Violation::Stray) => Judged::Stray,
            // Nothing outside of memories is reached through the cache.
            Ok(_) => Judged::Stray,
        }
    }

    /// A load or store through the cache, by the rules on what the watch knows.
    #[inline(never)]
    fn judge_touch(&self, layout: &Layout, address: u32, width: Width, store: bool) -> Judged
        ensures address { IsRefusedAt address result }
        ensures breach { (past : List PastEvent) → LinesStand layout.now self.now.table past → breach_of result ≡ rules.cached_breach layout.now (known self.now past) (data_target layout.now self.now.core address width Route.Cached (rules.direction store)) (line_number address) }
    {
        let line = line_of(address);
        match layout.memory_class(line) {
            Some(class) => self.judge_class(class, address, line, store),
            None => self.judge_outside(layout, address, width, store),
        }
    }

    /// The place of the record of the line of an address of a memory, where a load or store through the
    /// cache passes; `NO_PLACE` where that is to be judged. A number is answered in a register.
    #[inline(never)]
    fn passing_place(&self, layout: &Layout, address: u32, store: bool) -> u32
        ensures { (past : List PastEvent) (width : WidthValue) → LinesStand layout.now self.now.table past → result ≢ no_place → None ≡ rules.cached_breach layout.now (known self.now past) (data_target layout.now self.now.core address width Route.Cached (rules.direction store)) (line_number address) }
    {
        let line = line_of(address);
        match layout.memory_class(line) {
            Some(class) => match self.judge_class(class, address, line, store) {
                Judged::Passed(place) => place,
                Judged::Refused(_) => NO_PLACE,
                Judged::Stray => NO_PLACE,
            },
            None => NO_PLACE,
        }
    }

    /// Whether a load or store of a line is as one that was noted since anything but touches was.
    #[inline(always)]
    pub(crate) fn is_again(&self, line: u32, store: bool) -> bool
        ensures { result ≡ is_again self.now line store }
    {
        let place = (line % 4) as usize;
        u64::from(line) + 1 == self.touched[place] && (!store || self.stored[place])
    }

    /// What the discipline says of a load or store through the cache, in a layout of the board that
    /// the watch was opened with. What is as one that was noted passes at once; any other access of memory
    /// takes one look in the layout and one search for the record of its line.
    #[inline(always)]
    pub fn judge_cached(&self, layout: &Layout, address: u32, width: Width, store: bool) -> Judged
        ensures address { IsRefusedAt address result }
        ensures breach { (b : BoardValue) (book : Book) (past : List PastEvent) → StandsFor b layout.now self.now.core self.now book past → breach_of result ≡ rules.breach b layout.now (knowledge b book self.now.core past) (accesses.Cached address store) width }
    {
        if self.is_again(line_of(address), store) {
            return Judged::Passed(0);
        }
        let place = self.passing_place(layout, address, store);
        if place != NO_PLACE {
            return Judged::Passed(place);
        }
        self.judge_touch(layout, address, width, store)
    }

    /// The fetch of an instruction.
    fn judge_fetch(&self, layout: &Layout, address: u32) -> Option<Broken>
        ensures { result ≡ broken_at address (option_map (λ wrong. rules.violation wrong (line_number address)) (fetch_violation layout.now address)) }
    {
        match layout.fetch_violation(address) {
            Some(Violation::Separate) => Some(Broken {
                kind: Kind::Separate,
                address,
                line: line_of(address),
            }),
            Some(Violation::Stray) => None,
            None => None,
        }
    }

    /// The lowest dirty line of a guard.
    fn lowest_given(&self, guard: Guard) -> Option<u32>
        ensures { (map : AddressMap) (past : List PastEvent) → LinesStand map self.now.table past → result ≡ lowest (λ number. dirty (length self.now.table.cleaned) past number && guards map guard number) past }
    {
        self.records.lowest_of_guard(guard)
    }

    /// The lowest dirty line that a data cache operation covers.
    fn lowest_dropped(&self, op: DataOp, address: u32) -> Option<u32>
        ensures { (map : AddressMap) (past : List PastEvent) → LinesStand map self.now.table past → result ≡ lowest (λ number. dirty (length self.now.table.cleaned) past number && covers (length self.now.table.cleaned) op address number) past }
    {
        self.records.lowest_covered(op, address)
    }

    /// A data cache operation.
    fn judge_op(&self, op: DataOp, address: u32) -> Option<Broken>
        ensures { (map : AddressMap) (past : List PastEvent) → LinesStand map self.now.table past → result ≡ broken_at address (rules.op_breach (known self.now past) op address) }
    {
        match op {
            DataOp::Initd => unflushed(address, self.lowest_dropped(op, address)),
            DataOp::Initda => unflushed(address, self.lowest_dropped(op, address)),
            DataOp::Flushd => None,
            DataOp::Flushda => None,
        }
    }

    /// A guard that is given away.
    fn judge_gift(&self, guard: Guard, address: u32) -> Option<Broken>
        ensures { (map : AddressMap) (past : List PastEvent) → LinesStand map self.now.table past → result ≡ broken_at address (rules.gives map (known self.now past) guard) }
    {
        unflushed(address, self.lowest_given(guard))
    }

    /// A write of the register of a mutex.
    fn judge_mutex(&self, mutex: u32, value: u32, address: u32, line: u32) -> Option<Broken>
        ensures { (map : AddressMap) (past : List PastEvent) → LinesStand map self.now.table past → result ≡ broken_at address (rules.mutex_breach map (known self.now past) mutex value line) }
    {
        if value / 0x1_0000 == self.cpuid {
            if value % 0x1_0000 == 0 && self.owns(Guard::Mutex(mutex)) {
                self.judge_gift(Guard::Mutex(mutex), address)
            } else {
                None
            }
        } else {
            Some(Broken {
                kind: Kind::Lock,
                address,
                line,
            })
        }
    }

    /// Whether a region of the board lists a mailbox.
    fn lists(&self, region: u32, mailbox: u32) -> bool
        ensures { result ≡ rules.lists self.now.board region mailbox }
    {
        match self.board.region.as_slice().get(region as usize) {
            Some(row) => class_lists(&row.class, mailbox),
            None => false,
        }
    }

    /// A post of the region that a Pointer lies in.
    fn judge_post(
        &self,
        mailbox: u32,
        region: Option<u32>,
        address: u32,
        line: u32,
    ) -> Option<Broken>
        ensures { (map : AddressMap) (past : List PastEvent) → LinesStand map self.now.table past → result ≡ broken_at address (rules.post_breach self.now.board map (known self.now past) mailbox region line) }
    {
        let region = region?;
        if !self.lists(region, mailbox) {
            return Some(Broken {
                kind: Kind::Separate,
                address,
                line,
            });
        }
        if self.owns(Guard::Passed(region)) {
            self.judge_gift(Guard::Passed(region), address)
        } else {
            Some(Broken {
                kind: Kind::Lock,
                address,
                line,
            })
        }
    }

    /// The passed region that the Pointer register of a mailbox lies in, where the core sends to it.
    pub fn region_at(&self, layout: &Layout, mailbox: u32) -> Option<u32>
        ensures { result ≡ passed_region (class_of layout.now (line_number (get_or self.now.pointers mailbox 0))) }
    {
        let pointer = match self.pointers.get(mailbox as usize) {
            Some(pointer) => *pointer,
            None => 0,
        };
        passed_region(layout.class_of(line_of(pointer)))
    }

    /// An access of the sending or the receiving side of a mailbox.
    fn judge_side(
        &self,
        layout: &Layout,
        mailbox: u32,
        row: &MailboxRow,
        offset: u32,
        store: bool,
        address: u32,
        line: u32,
    ) -> Option<Broken>
        ensures { (past : List PastEvent) → LinesStand layout.now self.now.table past → result ≡ broken_at address (rules.side_breach self.now.board layout.now (known self.now past) mailbox row.now offset store line) }
    {
        let side = if offset < 4 { row.sender } else { row.receiver };
        if side != self.core {
            return Some(Broken {
                kind: Kind::Lock,
                address,
                line,
            });
        }
        if offset == 0 && store {
            self.judge_post(mailbox, self.region_at(layout, mailbox), address, line)
        } else {
            None
        }
    }

    /// An access of a device.
    fn judge_device(
        &self,
        layout: &Layout,
        part: Part,
        offset: u32,
        store: bool,
        value: u32,
        address: u32,
    ) -> Option<Broken>
        ensures { (past : List PastEvent) → LinesStand layout.now self.now.table past → result ≡ broken_at address (rules.device_breach self.now.board layout.now (known self.now past) part.kind part.index offset store value (line_number address)) }
    {
        let line = line_of(address);
        match part.kind {
            PartKind::Mutex => {
                if offset == 0 && store {
                    self.judge_mutex(part.index, value, address, line)
                } else {
                    None
                }
            }
            PartKind::Mailbox => match self.board.mailbox.as_slice().get(part.index as usize) {
                Some(row) => {
                    self.judge_side(layout, part.index, row, offset, store, address, line)
                }
                None => None,
            },
            _ => None,
        }
    }

    /// A load or store past the cache.
    fn judge_bypass(&self, layout: &Layout, address: u32, store: bool, value: u32) -> Option<Broken>
        ensures { (past : List PastEvent) → LinesStand layout.now self.now.table past → result ≡ broken_at address (rules.bypass_breach self.now.board layout.now (known self.now past) (data_target layout.now self.now.core address Width.Word Route.Bypassing (rules.direction store)) store value (line_number address)) }
    {
        let target = layout.data_target(
            self.core,
            address,
            Width::Word,
            Route::Bypassing,
            direction(store),
        );
        match target {
            Ok(Target::Memory) => None,
            Ok(Target::Device { part, offset }) => {
                self.judge_device(layout, part, offset, store, value, address)
            }
            Err(Violation::Separate) => Some(Broken {
                kind: Kind::Separate,
                address,
                line: line_of(address),
            }),
            Err(Violation::Stray) => None,
        }
    }

    /// The refusal of an access that does not stray, by the rules on what the watch knows.
    #[inline(always)]
    fn judge_known(&self, layout: &Layout, access: &Access) -> Option<Broken>
        ensures { (past : List PastEvent) (width : WidthValue) → LinesStand layout.now self.now.table past → rules.breach self.now.board layout.now (known self.now past) access.now width ≢ Some rules.Strays → result ≡ broken_at (address_of access.now) (rules.breach self.now.board layout.now (known self.now past) access.now width) }
    {
        match access {
            Access::Cached { address, store } => {
                refusal(self.judge_touch(layout, *address, Width::Word, *store))
            }
            Access::Bypass {
                address,
                store,
                value,
            } => self.judge_bypass(layout, *address, *store, *value),
            Access::Fetch { address } => self.judge_fetch(layout, *address),
            Access::Op { op, address } => self.judge_op(*op, *address),
        }
    }

    /// How an access is refused, if it is. The answer is for an access that does not stray, in a layout
    /// of the board that the watch was opened with; an access that strays is for the layout to find.
    #[inline(always)]
    pub fn judge(&self, layout: &Layout, access: &Access) -> Option<Broken>
        ensures { (b : BoardValue) (book : Book) (past : List PastEvent) (width : WidthValue) → StandsFor b layout.now self.now.core self.now book past → rules.breach b layout.now (knowledge b book self.now.core past) access.now width ≢ Some rules.Strays → result ≡ broken_at (address_of access.now) (rules.breach b layout.now (knowledge b book self.now.core past) access.now width) }
    {
        self.judge_known(layout, access)
    }
}
