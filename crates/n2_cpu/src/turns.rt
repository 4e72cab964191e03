//! The turns of a core.

ghost use Rattle.std.specs.Prelude.{◌≡◌, ℕ, ◌<◌, ◌+◌, ◌≤◌, ◌^◌, List, length, None, Some, slice_get, is_some, IsTrue};
ghost use Rattle.n2_exec.specs.Outcomes.{IsProper};
ghost use Rattle.n2_parts.specs.declared.board.Board.{Board as BoardValue};
ghost use Rattle.n2_parts.specs.declared.board.CoreRow.{CoreRow as CoreRowValue};
ghost use Rattle.n2_board.specs.AddressMap.{AddressMap};
ghost use Rattle.n2_bus.specs.declared.request.Request.{Request as RequestValue};
ghost use Rattle.n2_bus.specs.Wiring.{wiring_of, proper};
ghost use Rattle.n2_watch.specs.declared.past.Past.{Past as PastEvent};
ghost use Rattle.n2_watch.specs.Book.{knowledge};
ghost use Rattle.n2_watch.specs.World.{World, transferred};
ghost use Rattle.n2_front.specs.Tasks.{task_of, task_breach};
ghost use Rattle.n2_front.specs.Core.{Core, stop_of, log_full};
ghost use Rattle.n2_front.specs.Turn as spec;
ghost use Rattle.n2_cpu.specs.Aims.{intent_of, IsFit, IsMeant};
ghost use Rattle.n2_cpu.specs.Stands.{Holds, HasRoom, AreQuiet, IsQuiet, IsSound, IsTurned, IsPart, IsShared, IsMade, IsNext, StandsFor, core_now, settled, counted, planned, IsStep};

use crate::aim::Aim;
use crate::state::{State, aim, quiet_turns};
use crate::wants::wants;
use n2_board::{Act, Layout, Route, Stop};
use n2_bus::{Reply, Request};
use n2_exec::Asked;

/// What the next turn of a core is: without a transfer, with one, or none where it has stopped.
#[derive(Clone, Copy, Debug, PartialEq, Eq)]
pub enum Plan {
    Local,
    Transfer(Request),
    Over,
}

/// A step of a core: a turn without a transfer was made, with its act; the next turn wants a
/// transfer; or the core has stopped. In the last two nothing has changed.
#[derive(Clone, Copy, Debug, PartialEq, Eq)]
pub enum Step {
    Made(Option<Act>),
    Wants(Request),
    Over,
}

/// What a turn without a transfer is replied.
const NOTHING: Reply = Reply {
    words: [0; 8],
    lines: 0,
    took: false,
    pointer: 0,
};

impl State {
    /// Does what an instruction left to do.
    #[inline(always)]
    fn do_asked(&mut self, layout: &Layout, asked: Asked, place: u32, reply: &Reply) -> Option<Act>
        requires room { HasRoom self.old.watch }
        requires proper { IsProper asked }
        ensures part { IsPart self.old self.new }
        ensures turned { (b : BoardValue) (w : World) (past : List PastEvent) → Holds b layout.now self.old w.book past → IsShared b layout.now w → self.old.clock.number < length b.core → task_breach b layout.now (knowledge b w.book self.old.clock.number past) (task_of asked) ≡ None → let c = core_now self.old past in let t = spec.served_by b layout.now self.old.clock.number w (spec.wants_task self.old.dcache (task_of asked)) in reply.now ≡ t.reply → IsTurned b layout.now self.new result t.world.book (spec.does_task b layout.now self.old.clock.number c c.front w t (task_of asked)) }
    {
        match asked {
            Asked::Done => self.finish(),
            Asked::Raise(_) => self.raise(),
            Asked::Broke => self.halt(Stop::Broke),
            Asked::CodeOp { address } => self.drop_code(address),
            Asked::LineOp { op, address } => self.clean(layout, op, address),
            Asked::Load {
                address,
                width,
                signed,
                io,
                to,
            } => match Route::of(address, io) {
                Route::Bypassing => self.load_past(layout, address, width, signed, to, reply),
                Route::Cached => self.load(place, address, width, signed, to, reply),
            },
            Asked::Store {
                address,
                width,
                value,
                io,
            } => match Route::of(address, io) {
                Route::Bypassing => self.store_past(layout, address, width, value, reply),
                Route::Cached => self.store(place, address, width, value, reply),
            },
        }
    }

    /// Makes the core's part of a turn.
    #[inline(always)]
    fn perform(&mut self, layout: &Layout, aim: Aim, reply: &Reply) -> Option<Act>
        requires room { HasRoom self.old.watch }
        requires fit { IsFit (length self.old.dcache) aim }
        ensures part { IsPart self.old self.new }
        ensures turned { (b : BoardValue) (w : World) (past : List PastEvent) → Holds b layout.now self.old w.book past → IsShared b layout.now w → self.old.clock.number < length b.core → let k = self.old.clock.number in let c = core_now self.old past in let i = intent_of c.front self.old.regs aim in let t = spec.served_by b layout.now k w (spec.wants_by self.old.dcache i) in IsMeant b layout.now k w.book past i → reply.now ≡ t.reply → IsTurned b layout.now self.new result t.world.book (spec.answered b layout.now k c w t i) }
    {
        match aim {
            Aim::Sample => self.sample(reply.lines),
            Aim::Evict(set) => self.evict(set),
            Aim::Interrupt => self.interrupt(),
            Aim::Stop(stop) => self.halt(stop),
            Aim::FillCode(line) => self.fill_code(line, reply),
            Aim::Do(asked, place) => self.do_asked(layout, asked, place, reply),
        }
    }

    /// Where no turn was left that was known to be quiet: stops a core that has made all its turns, and
    /// counts the quiet turns from the next on.
    #[cold]
    fn settle(&mut self)
        requires { 0 < self.old.clock.sample }
        ensures settled { self.new ≡ settled self.old self.new.clock.quiet }
        ensures quiet { AreQuiet self.old.clock.sample self.old.clock.evict self.old.clock.turns self.new.clock.quiet }
        ensures end { self.new.stop ≡ None → self.new.clock.quiet + self.old.clock.turns < self.old.clock.limit }
    {
        self.clock.quiet = quiet_turns(&self.clock);
        if self.stop.is_none() && self.clock.turns >= self.clock.limit {
            self.stop = Some(Stop::Spent);
        }
    }

    /// Counts a turn.
    #[inline(always)]
    fn count(&mut self, transfer: bool)
        requires quiet { IsQuiet self.old.clock }
        requires left { self.old.clock.quiet + self.old.clock.turns < self.old.clock.limit }
        requires local { self.old.clock.local ≤ self.old.clock.turns }
        requires fits { self.old.clock.limit < 2 ^ 64 }
        ensures counted { self.new ≡ counted self.old transfer self.new.clock.quiet }
        ensures quiet { IsQuiet self.new.clock }
        ensures end { self.new.stop ≡ None → self.new.clock.quiet + self.new.clock.turns < self.new.clock.limit }
    {
        let turns = self.clock.turns + 1;
        self.clock.turns = turns;
        self.clock.local = if transfer { 0 } else { self.clock.local + 1 };
        if self.clock.quiet > 0 {
            self.clock.quiet -= 1;
            return;
        }
        self.settle();
    }

    /// Makes a turn with what the bus replied.
    #[inline(always)]
    fn make(&mut self, layout: &Layout, aim: Aim, reply: &Reply, transfer: bool) -> Option<Act>
        requires sound { IsSound self.old }
        requires running { self.old.stop ≡ None }
        requires fit { IsFit (length self.old.dcache) aim }
        ensures sound { IsSound self.new }
        ensures made { (b : BoardValue) (w : World) (past : List PastEvent) → Holds b layout.now self.old w.book past → IsShared b layout.now w → self.old.clock.number < length b.core → let k = self.old.clock.number in let c = core_now self.old past in let i = intent_of c.front self.old.regs aim in let t = spec.served_by b layout.now k w (spec.wants_by self.old.dcache i) in IsMeant b layout.now k w.book past i → reply.now ≡ t.reply → IsMade b layout.now self.old self.new result transfer t.world.book (spec.answered b layout.now k c w t i) }
    {
        let act = self.perform(layout, aim, reply);
        self.count(transfer);
        act
    }

    /// `make` in code of its own: the turn of an instruction that left nothing to do is short without it.
    #[inline(never)]
    fn make_apart(
        &mut self,
        layout: &Layout,
        aim: Aim,
        reply: &Reply,
        transfer: bool,
    ) -> Option<Act>
        requires sound { IsSound self.old }
        requires running { self.old.stop ≡ None }
        requires fit { IsFit (length self.old.dcache) aim }
        ensures sound { IsSound self.new }
        ensures made { (b : BoardValue) (w : World) (past : List PastEvent) → Holds b layout.now self.old w.book past → IsShared b layout.now w → self.old.clock.number < length b.core → let k = self.old.clock.number in let c = core_now self.old past in let i = intent_of c.front self.old.regs aim in let t = spec.served_by b layout.now k w (spec.wants_by self.old.dcache i) in IsMeant b layout.now k w.book past i → reply.now ≡ t.reply → IsMade b layout.now self.old self.new result transfer t.world.book (spec.answered b layout.now k c w t i) }
    {
        self.make(layout, aim, reply, transfer)
    }

    /// What the next turn is.
    #[inline(never)]
    pub fn plan(&self, layout: &Layout) -> Plan
        requires { IsSound self.now }
        ensures planned { (b : BoardValue) (k : ℕ) (row : CoreRowValue) (c : Core) (w : World) → StandsFor b layout.now k self.now c w → slice_get b.core k ≡ Some row → result ≡ planned self.now.stop (spec.wants b layout.now k row w.book c) }
        ensures proper { (b : BoardValue) (k : ℕ) (row : CoreRowValue) (c : Core) (w : World) (request : RequestValue) → StandsFor b layout.now k self.now c w → slice_get b.core k ≡ Some row → result ≡ Plan.Transfer request → IsTrue (proper (wiring_of b) k request) }
    {
        if self.stop.is_some() {
            return Plan::Over;
        }
        let mut regs = self.regs;
        let aim = aim(
            &self.clock,
            &mut regs,
            &self.dcache,
            &self.icache,
            &self.watch,
            layout,
        );
        match wants(&self.dcache, &aim) {
            Some(request) => Plan::Transfer(request),
            None => Plan::Local,
        }
    }

    /// Makes the next turn, where it is without a transfer.
    #[inline(always)]
    pub fn step(&mut self, layout: &Layout) -> Step
        requires { IsSound self.old }
        ensures sound { IsSound self.new }
        ensures step { (b : BoardValue) (k : ℕ) (row : CoreRowValue) (c : Core) (w : World) → StandsFor b layout.now k self.old c w → IsShared b layout.now w → slice_get b.core k ≡ Some row → IsStep b layout.now k row self.old self.new result c w }
        ensures proper { (b : BoardValue) (k : ℕ) (row : CoreRowValue) (c : Core) (w : World) (request : RequestValue) → StandsFor b layout.now k self.old c w → slice_get b.core k ≡ Some row → result ≡ Step.Wants request → IsTrue (proper (wiring_of b) k request) }
    {
        if self.stop.is_some() {
            return Step::Over;
        }
        let aim = aim(
            &self.clock,
            &mut self.regs,
            &self.dcache,
            &self.icache,
            &self.watch,
            layout,
        );
        if let Aim::Do(Asked::Done, place) = aim {
            let done = Aim::Do(Asked::Done, place);
            return Step::Made(self.make(layout, done, &NOTHING, false));
        }
        match wants(&self.dcache, &aim) {
            Some(request) => Step::Wants(request),
            None => Step::Made(self.make_apart(layout, aim, &NOTHING, false)),
        }
    }

    /// Makes a turn that wants a transfer, with its reply.
    #[inline(never)]
    pub fn answer(&mut self, layout: &Layout, reply: &Reply) -> Option<Act>
        requires { IsSound self.old }
        ensures sound { IsSound self.new }
        ensures next { (b : BoardValue) (k : ℕ) (row : CoreRowValue) (c : Core) (w : World) (request : RequestValue) → StandsFor b layout.now k self.old c w → IsShared b layout.now w → slice_get b.core k ≡ Some row → stop_of c ≡ None → spec.wants b layout.now k row w.book c ≡ Some request → reply.now ≡ (transferred b layout.now k w request).reply → IsNext b layout.now k self.new result (spec.core_turn b layout.now k row c w) }
    {
        if self.stop.is_some() {
            return None;
        }
        let aim = aim(
            &self.clock,
            &mut self.regs,
            &self.dcache,
            &self.icache,
            &self.watch,
            layout,
        );
        self.make(layout, aim, reply, true)
    }

    /// Stops as the journal is full.
    pub fn full(&mut self)
        requires sound { IsSound self.old }
        requires running { self.old.stop ≡ None }
        ensures sound { IsSound self.new }
        ensures full { (b : BoardValue) (map : AddressMap) (k : ℕ) (c : Core) (w : World) → StandsFor b map k self.old c w → StandsFor b map k self.new (log_full c) w }
    {
        self.clock.turns += 1;
        self.clock.local += 1;
        self.clock.quiet = 0;
        self.stop = Some(Stop::LogFull);
    }
}
