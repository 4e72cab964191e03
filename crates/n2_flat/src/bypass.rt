//! Loads and stores past the caches.

ghost use Rattle.std.specs.Prelude.{◌≡◌, ◌<◌, IsTrue, if◌then◌else◌, Option, Some, None, option_map, true, false, OnOk, OnErr};
ghost use Rattle.n2_word.specs.Words.{is_aligned};
ghost use Rattle.n2_word.specs.Lines.{without_bypass};
ghost use Rattle.n2_board.specs.AddressMap.{place};
ghost use Rattle.n2_watch.specs.declared.access.Access.TheVariants as accesses;
ghost use Rattle.n2_watch.specs.Discipline.{breach};
ghost use Rattle.n2_front.specs.Tasks as tasks;
ghost use Rattle.n2_front.specs.Retire.{who, done, performed};
ghost use Rattle.n2_parts.specs.declared.board.PartKind.TheVariants as kinds;
ghost use Rattle.n2_board.specs.declared.guards.Guard.TheVariants as guard_kinds;
ghost use Rattle.n2_board.specs.declared.places.Place.TheVariants.{Device};
ghost use Rattle.n2_watch.specs.Book.{receiver_of};
ghost use Rattle.n2_flat.specs.State.{IsWatched, IsAt, acted_by, reads_alone, writes_alone, is_uart, taken_region, posted_region, guard_written, owned_if};

use crate::common::Common;
use crate::cores::FlatCore;
use n2_board::{Board, Class, Guard, Holder, Layout, Part, PartKind, Place};
use n2_bus::{Reply, Request};
use n2_exec::extended;
use n2_watch::{Done, Past, Watch};
use n2_word::{NoMemory, Width, line_of};

/// Whether a read of a place changes nothing of ownership.
#[inline(always)]
fn reads_alone(place: Place) -> bool
    ensures { result ≡ reads_alone place }
{
    match place {
        Place::Memory => true,
        Place::Device { part, .. } => part.kind != PartKind::Mailbox,
        Place::Nothing => true,
    }
}

/// Whether a write of a place changes nothing of ownership, and nothing that was sent.
#[inline(always)]
fn writes_alone(place: Place) -> bool
    ensures { result ≡ writes_alone place }
{
    match place {
        Place::Memory => true,
        Place::Device { part, .. } => match part.kind {
            PartKind::Mutex | PartKind::Mailbox | PartKind::Uart => false,
            _ => true,
        },
        Place::Nothing => true,
    }
}

/// The region of a message that is taken.
fn taken_region(layout: &Layout, reply: &Reply) -> Option<u32>
    ensures { result ≡ taken_region layout.now reply.now }
{
    if !reply.took {
        return None;
    }
    match layout.class_of(line_of(reply.pointer)) {
        Class::Passed(region) => Some(region),
        _ => None,
    }
}

/// The region that a write posts, by the one that the Pointer register lies in.
fn posted_region(kind: PartKind, offset: u32, region: Option<u32>) -> Option<u32>
    ensures { result ≡ posted_region kind offset region }
{
    match kind {
        PartKind::Mailbox => if offset == 0 { region } else { None },
        _ => None,
    }
}

/// A region, where the write that posts it took effect.
fn taken(took: bool, region: Option<u32>) -> Option<u32>
    ensures { result ≡ if took then region else None }
{
    if took { region } else { None }
}

/// A region as a guard.
fn passed(region: Option<u32>) -> Option<Guard>
    ensures { result ≡ option_map (λ found. guard_kinds.Passed found) region }
{
    match region {
        Some(region) => Some(Guard::Passed(region)),
        None => None,
    }
}

/// The guard of a write, by the region that it posts.
fn guard_written(part: Part, offset: u32, region: Option<u32>) -> Option<Guard>
    ensures { result ≡ guard_written part.kind part.index offset region }
{
    match part.kind {
        PartKind::Mutex => if offset == 0 {
            Some(Guard::Mutex(part.index))
        } else {
            None
        },
        _ => passed(region),
    }
}

/// The core that a mailbox is read by.
fn receiver_of(board: &Board, mailbox: u32) -> u32
    ensures { result ≡ receiver_of board.now mailbox }
{
    match board.mailbox.as_slice().get(mailbox as usize) {
        Some(row) => row.receiver,
        None => 0,
    }
}

/// Whether the core owns a guard.
fn owns(watch: &Watch, guard: Option<Guard>) -> bool
    ensures { result ≡ owned_if watch.now guard }
{
    match guard {
        Some(guard) => watch.owns(guard),
        None => false,
    }
}

impl FlatCore {
    /// A load that changes nothing of ownership.
    #[inline(always)]
    fn load_alone(
        &mut self,
        board: &Board,
        k: u32,
        layout: &Layout,
        common: &mut Common,
        address: u32,
        low: u32,
        width: Width,
        signed: bool,
        to: u8,
    )
        requires at { IsAt board.now layout.now k common.old self.old }
        requires aligned { IsTrue (is_aligned address width) }
        requires register { to < 32 }
        requires unbroken { breach board.now layout.now (who board.now k self.old.front common.old.world.book) (accesses.Bypass address false 0) width ≡ None }
        requires low { low ≡ without_bypass address }
        requires alone { IsTrue (reads_alone (place layout.now low)) }
        ensures done { acted_by self.new common.new ≡ done board.now layout.now k self.old.front common.old.world (tasks.LoadPast address width signed to) }
        ensures wiring { common.new.wiring ≡ common.old.wiring }
        ensures watched { IsWatched board.now layout.now k common.new.world.book self.new }
    {
        n2_bus::laws::what_passes_is_proper();
        let reply = common.transfer(k, &Request::Read(low, width));
        self.regs
            .put_loaded(to, extended(reply.words[0], width, signed));
        self.regs.latch_lines(reply.lines);
    }

    /// A load of a word of a mailbox.
    fn load_mailbox(
        &mut self,
        board: &Board,
        k: u32,
        layout: &Layout,
        common: &mut Common,
        address: u32,
        low: u32,
        signed: bool,
        to: u8,
        part: Part,
        offset: u32,
    ) -> Result<(), NoMemory>
        requires at { IsAt board.now layout.now k common.old self.old }
        requires aligned { IsTrue (is_aligned address Width.Word) }
        requires register { to < 32 }
        requires unbroken { breach board.now layout.now (who board.now k self.old.front common.old.world.book) (accesses.Bypass address false 0) Width.Word ≡ None }
        requires low { low ≡ without_bypass address }
        requires there { place layout.now low ≡ Device part offset }
        requires kind { part.kind ≡ kinds.Mailbox }
        ensures done { OnOk result (acted_by self.new common.new ≡ done board.now layout.now k self.old.front common.old.world (tasks.LoadPast address Width.Word signed to)) }
        ensures same { OnErr result (self.new ≡ self.old) }
        ensures common { OnErr result (common.new ≡ common.old) }
        ensures wiring { common.new.wiring ≡ common.old.wiring }
        ensures watched { IsWatched board.now layout.now k common.new.world.book self.new }
    {
        n2_bus::laws::what_passes_is_proper();
        if !self.watch.has_room() {
            return Err(NoMemory);
        }
        self.past.push(Past::Got(Guard::Passed(part.index)))?;
        let reply = common.transfer(k, &Request::Read(low, Width::Word));
        let region = taken_region(layout, &reply);
        common.hold(region, Holder::ByCore(receiver_of(board, part.index)));
        let guard = passed(region);
        let before = owns(&self.watch, guard);
        self.watch.note(
            layout,
            &Done::Received {
                address,
                took: reply.took,
                pointer: reply.pointer,
            },
        );
        let after = owns(&self.watch, guard);
        self.past.settle(guard, before, after);
        self.regs
            .put_loaded(to, extended(reply.words[0], Width::Word, signed));
        self.regs.latch_lines(reply.lines);
        Ok(())
    }

    /// A load of a mailbox, or one that changes nothing of ownership.
    fn load_shared(
        &mut self,
        board: &Board,
        k: u32,
        layout: &Layout,
        common: &mut Common,
        address: u32,
        low: u32,
        width: Width,
        signed: bool,
        to: u8,
    ) -> Result<(), NoMemory>
        requires at { IsAt board.now layout.now k common.old self.old }
        requires aligned { IsTrue (is_aligned address width) }
        requires register { to < 32 }
        requires unbroken { breach board.now layout.now (who board.now k self.old.front common.old.world.book) (accesses.Bypass address false 0) width ≡ None }
        requires low { low ≡ without_bypass address }
        ensures done { OnOk result (acted_by self.new common.new ≡ done board.now layout.now k self.old.front common.old.world (tasks.LoadPast address width signed to)) }
        ensures same { OnErr result (self.new ≡ self.old) }
        ensures common { OnErr result (common.new ≡ common.old) }
        ensures wiring { common.new.wiring ≡ common.old.wiring }
        ensures watched { IsWatched board.now layout.now k common.new.world.book self.new }
    {
        match layout.place(low) {
            Place::Device { part, offset } if part.kind == PartKind::Mailbox => {
                self.load_mailbox(
                    board, k, layout, common, address, low, signed, to, part, offset,
                )
            }
            _ => {
                self.load_alone(board, k, layout, common, address, low, width, signed, to);
                Ok(())
            }
        }
    }

    /// A load that the judge let pass.
    fn load_past_let(
        &mut self,
        board: &Board,
        k: u32,
        layout: &Layout,
        common: &mut Common,
        address: u32,
        width: Width,
        signed: bool,
        to: u8,
    ) -> Result<(), NoMemory>
        requires at { IsAt board.now layout.now k common.old self.old }
        requires aligned { IsTrue (is_aligned address width) }
        requires register { to < 32 }
        requires unbroken { breach board.now layout.now (who board.now k self.old.front common.old.world.book) (accesses.Bypass address false 0) width ≡ None }
        ensures done { OnOk result (acted_by self.new common.new ≡ done board.now layout.now k self.old.front common.old.world (tasks.LoadPast address width signed to)) }
        ensures same { OnErr result (self.new ≡ self.old) }
        ensures common { OnErr result (common.new ≡ common.old) }
        ensures wiring { common.new.wiring ≡ common.old.wiring }
        ensures watched { IsWatched board.now layout.now k common.new.world.book self.new }
    {
        let low = address & 0x7fff_ffff;
        if reads_alone(layout.place(low)) {
            self.load_alone(board, k, layout, common, address, low, width, signed, to);
            Ok(())
        } else {
            self.load_shared(board, k, layout, common, address, low, width, signed, to)
        }
    }

    /// A load past the cache.
    #[inline(never)]
    pub fn load_past(
        &mut self,
        board: &Board,
        k: u32,
        layout: &Layout,
        common: &mut Common,
        word: u32,
        address: u32,
        width: Width,
        signed: bool,
        to: u8,
    ) -> Result<(), NoMemory>
        requires at { IsAt board.now layout.now k common.old self.old }
        requires aligned { IsTrue (is_aligned address width) }
        requires register { to < 32 }
        ensures done { OnOk result (acted_by self.new common.new ≡ performed board.now layout.now k self.old.front common.old.world word (tasks.LoadPast address width signed to)) }
        ensures same { OnErr result (self.new ≡ self.old) }
        ensures common { OnErr result (common.new ≡ common.old) }
        ensures wiring { common.new.wiring ≡ common.old.wiring }
        ensures watched { IsWatched board.now layout.now k common.new.world.book self.new }
    {
        match self.judge_past(k, layout, address, width, false, 0, word) {
            Some(stop) => {
                self.halt(stop);
                Ok(())
            }
            None => self.load_past_let(board, k, layout, common, address, width, signed, to),
        }
    }

    /// A store that changes nothing of ownership, and nothing that was sent.
    #[inline(always)]
    fn store_alone(
        &mut self,
        board: &Board,
        k: u32,
        layout: &Layout,
        common: &mut Common,
        address: u32,
        low: u32,
        width: Width,
        value: u32,
    )
        requires at { IsAt board.now layout.now k common.old self.old }
        requires aligned { IsTrue (is_aligned address width) }
        requires unbroken { breach board.now layout.now (who board.now k self.old.front common.old.world.book) (accesses.Bypass address true value) width ≡ None }
        requires low { low ≡ without_bypass address }
        requires alone { IsTrue (writes_alone (place layout.now low)) }
        ensures done { acted_by self.new common.new ≡ done board.now layout.now k self.old.front common.old.world (tasks.StorePast address width value) }
        ensures wiring { common.new.wiring ≡ common.old.wiring }
        ensures watched { IsWatched board.now layout.now k common.new.world.book self.new }
    {
        n2_bus::laws::what_passes_is_proper();
        let reply = common.transfer(k, &Request::Write(low, width, value));
        self.regs.advance();
        self.regs.latch_lines(reply.lines);
    }

    /// A store of a word of a mutex or a mailbox.
    fn store_guarded(
        &mut self,
        board: &Board,
        k: u32,
        layout: &Layout,
        common: &mut Common,
        address: u32,
        low: u32,
        value: u32,
        part: Part,
        offset: u32,
    ) -> Result<(), NoMemory>
        requires at { IsAt board.now layout.now k common.old self.old }
        requires aligned { IsTrue (is_aligned address Width.Word) }
        requires unbroken { breach board.now layout.now (who board.now k self.old.front common.old.world.book) (accesses.Bypass address true value) Width.Word ≡ None }
        requires low { low ≡ without_bypass address }
        requires there { place layout.now low ≡ Device part offset }
        requires kind { is_uart part.kind ≡ false }
        ensures done { OnOk result (acted_by self.new common.new ≡ done board.now layout.now k self.old.front common.old.world (tasks.StorePast address Width.Word value)) }
        ensures same { OnErr result (self.new ≡ self.old) }
        ensures common { OnErr result (common.new ≡ common.old) }
        ensures wiring { common.new.wiring ≡ common.old.wiring }
        ensures watched { IsWatched board.now layout.now k common.new.world.book self.new }
    {
        n2_bus::laws::what_passes_is_proper();
        if !self.watch.has_room() {
            return Err(NoMemory);
        }
        self.past.push(Past::Got(Guard::Mutex(part.index)))?;
        let region = posted_region(part.kind, offset, self.watch.region_at(layout, part.index));
        let reply = common.transfer(k, &Request::Write(low, Width::Word, value));
        common.hold(taken(reply.took, region), Holder::ByMailbox(part.index));
        let guard = guard_written(part, offset, region);
        let before = owns(&self.watch, guard);
        self.watch.note(
            layout,
            &Done::Wrote {
                address,
                value,
                took: reply.took,
            },
        );
        let after = owns(&self.watch, guard);
        self.past.settle(guard, before, after);
        self.regs.advance();
        self.regs.latch_lines(reply.lines);
        Ok(())
    }

    /// A store of a word of a UART.
    fn store_uart(
        &mut self,
        board: &Board,
        k: u32,
        layout: &Layout,
        common: &mut Common,
        address: u32,
        low: u32,
        value: u32,
        part: Part,
        offset: u32,
    ) -> Result<(), NoMemory>
        requires at { IsAt board.now layout.now k common.old self.old }
        requires aligned { IsTrue (is_aligned address Width.Word) }
        requires unbroken { breach board.now layout.now (who board.now k self.old.front common.old.world.book) (accesses.Bypass address true value) Width.Word ≡ None }
        requires low { low ≡ without_bypass address }
        requires there { place layout.now low ≡ Device part offset }
        requires kind { part.kind ≡ kinds.Uart }
        ensures done { OnOk result (acted_by self.new common.new ≡ done board.now layout.now k self.old.front common.old.world (tasks.StorePast address Width.Word value)) }
        ensures same { OnErr result (self.new ≡ self.old) }
        ensures common { OnErr result (common.new ≡ common.old) }
        ensures wiring { common.new.wiring ≡ common.old.wiring }
        ensures watched { IsWatched board.now layout.now k common.new.world.book self.new }
    {
        n2_bus::laws::what_passes_is_proper();
        let request = Request::Write(low, Width::Word, value);
        let reply = common.write_uart(k, &request, part.index, offset, value)?;
        self.regs.advance();
        self.regs.latch_lines(reply.lines);
        Ok(())
    }

    /// A store of a mutex, a mailbox or a UART, or one that changes nothing of ownership.
    fn store_shared(
        &mut self,
        board: &Board,
        k: u32,
        layout: &Layout,
        common: &mut Common,
        address: u32,
        low: u32,
        width: Width,
        value: u32,
    ) -> Result<(), NoMemory>
        requires at { IsAt board.now layout.now k common.old self.old }
        requires aligned { IsTrue (is_aligned address width) }
        requires unbroken { breach board.now layout.now (who board.now k self.old.front common.old.world.book) (accesses.Bypass address true value) width ≡ None }
        requires low { low ≡ without_bypass address }
        ensures done { OnOk result (acted_by self.new common.new ≡ done board.now layout.now k self.old.front common.old.world (tasks.StorePast address width value)) }
        ensures same { OnErr result (self.new ≡ self.old) }
        ensures common { OnErr result (common.new ≡ common.old) }
        ensures wiring { common.new.wiring ≡ common.old.wiring }
        ensures watched { IsWatched board.now layout.now k common.new.world.book self.new }
    {
        match layout.place(low) {
            Place::Memory => {
                self.store_alone(board, k, layout, common, address, low, width, value);
                Ok(())
            }
            Place::Device { part, offset } => {
                if part.kind == PartKind::Uart {
                    self.store_uart(board, k, layout, common, address, low, value, part, offset)
                } else {
                    self.store_guarded(board, k, layout, common, address, low, value, part, offset)
                }
            }
            Place::Nothing => {
                self.store_alone(board, k, layout, common, address, low, width, value);
                Ok(())
            }
        }
    }

    /// A store that the judge let pass.
    fn store_past_let(
        &mut self,
        board: &Board,
        k: u32,
        layout: &Layout,
        common: &mut Common,
        address: u32,
        width: Width,
        value: u32,
    ) -> Result<(), NoMemory>
        requires at { IsAt board.now layout.now k common.old self.old }
        requires aligned { IsTrue (is_aligned address width) }
        requires unbroken { breach board.now layout.now (who board.now k self.old.front common.old.world.book) (accesses.Bypass address true value) width ≡ None }
        ensures done { OnOk result (acted_by self.new common.new ≡ done board.now layout.now k self.old.front common.old.world (tasks.StorePast address width value)) }
        ensures same { OnErr result (self.new ≡ self.old) }
        ensures common { OnErr result (common.new ≡ common.old) }
        ensures wiring { common.new.wiring ≡ common.old.wiring }
        ensures watched { IsWatched board.now layout.now k common.new.world.book self.new }
    {
        let low = address & 0x7fff_ffff;
        if writes_alone(layout.place(low)) {
            self.store_alone(board, k, layout, common, address, low, width, value);
            Ok(())
        } else {
            self.store_shared(board, k, layout, common, address, low, width, value)
        }
    }

    /// A store past the cache.
    #[inline(never)]
    pub fn store_past(
        &mut self,
        board: &Board,
        k: u32,
        layout: &Layout,
        common: &mut Common,
        word: u32,
        address: u32,
        width: Width,
        value: u32,
    ) -> Result<(), NoMemory>
        requires at { IsAt board.now layout.now k common.old self.old }
        requires aligned { IsTrue (is_aligned address width) }
        ensures done { OnOk result (acted_by self.new common.new ≡ performed board.now layout.now k self.old.front common.old.world word (tasks.StorePast address width value)) }
        ensures same { OnErr result (self.new ≡ self.old) }
        ensures common { OnErr result (common.new ≡ common.old) }
        ensures wiring { common.new.wiring ≡ common.old.wiring }
        ensures watched { IsWatched board.now layout.now k common.new.world.book self.new }
    {
        match self.judge_past(k, layout, address, width, true, value, word) {
            Some(stop) => {
                self.halt(stop);
                Ok(())
            }
            None => self.store_past_let(board, k, layout, common, address, width, value),
        }
    }
}
