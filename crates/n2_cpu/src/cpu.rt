//! A core as its callers see it.

ghost use Rattle.std.specs.Prelude.{◌≡◌, ◌<◌, ℕ, List, length, IfOk, IsTrue, Some, None, slice_get};
ghost use Rattle.n2_elf.specs.declared.image.Image.{Image as ImageValue};
ghost use Rattle.n2_parts.specs.declared.board.Board.{Board as BoardValue};
ghost use Rattle.n2_parts.specs.declared.board.CoreRow.{CoreRow as CoreRowValue};
ghost use Rattle.n2_board.specs.AddressMap.{AddressMap};
ghost use Rattle.n2_bus.specs.declared.request.Request.{Request as RequestValue};
ghost use Rattle.n2_bus.specs.Wiring.{wiring_of, proper};
ghost use Rattle.n2_watch.specs.World.{World, start_world, transferred};
ghost use Rattle.n2_watch.specs.Watched.{IsMapOf};
ghost use Rattle.n2_front.specs.Core.{Core as CoreValue, started_core, stop_of, log_full};
ghost use Rattle.n2_front.specs.Turn as spec;
ghost use Rattle.n2_cpu.specs.Stands.{IsShared, IsNext, IsStep, StandsFor, planned};

use crate::state::State;
use crate::turns::{Plan, Step};
use n2_board::{Act, Board, Layout, Stop};
use n2_bus::{Reply, Request};
use n2_elf::Image;
use n2_exec::Regs;
use n2_word::NoMemory;
use std::alloc::Global;
use std::marker::Model;

/// A core with its private caches and its watch. Contracts see its parts, and say for which cores of
/// the definitions it stands.
#[derive(Debug, Drop)]
pub struct Core {
    state: State,
}

impl Model for Core {
    ghost use Rattle.n2_cpu.specs.declared.state.State.{State};
    ghost use Rattle.n2_cpu.specs.Stands.{IsSound};

    ghost Value = { State };

    ghost view = { λ c. c.state };

    ghost invariant = { λ c. IsSound c.state };
}

impl Core {
    /// A core before its first turn, with empty caches. It takes here all the memory that it ever
    /// uses; NoMemory is its only error.
    pub fn open(
        alloc: Global,
        core: u32,
        board: &Board,
        image: &Image,
        layout: &Layout,
    ) -> Result<Core, NoMemory>
        requires core { core < length board.now.core }
        requires map { IsMapOf board.now layout.now }
        ensures { IfOk result (λ opened. (row : CoreRowValue) (images : List ImageValue) → slice_get board.now.core core ≡ Some row → StandsFor board.now layout.now core opened (started_core row image.now) (start_world board.now images)) }
    {
        let state = State::open(alloc, core, board, image, layout)?;
        Ok(Core { state })
    }

    /// What the next turn is.
    pub fn plan(&self, layout: &Layout) -> Plan
        ensures planned { (b : BoardValue) (k : ℕ) (row : CoreRowValue) (c : CoreValue) (w : World) → StandsFor b layout.now k self.now c w → slice_get b.core k ≡ Some row → result ≡ planned (stop_of c) (spec.wants b layout.now k row w.book c) }
        ensures proper { (b : BoardValue) (k : ℕ) (row : CoreRowValue) (c : CoreValue) (w : World) (request : RequestValue) → StandsFor b layout.now k self.now c w → slice_get b.core k ≡ Some row → result ≡ Plan.Transfer request → IsTrue (proper (wiring_of b) k request) }
    {
        self.state.plan(layout)
    }

    /// Makes the next turn, where it is without a transfer.
    #[inline(always)]
    pub fn step(&mut self, layout: &Layout) -> Step
        ensures step { (b : BoardValue) (k : ℕ) (row : CoreRowValue) (c : CoreValue) (w : World) → StandsFor b layout.now k self.old c w → IsShared b layout.now w → slice_get b.core k ≡ Some row → IsStep b layout.now k row self.old self.new result c w }
        ensures proper { (b : BoardValue) (k : ℕ) (row : CoreRowValue) (c : CoreValue) (w : World) (request : RequestValue) → StandsFor b layout.now k self.old c w → slice_get b.core k ≡ Some row → result ≡ Step.Wants request → IsTrue (proper (wiring_of b) k request) }
    {
        self.state.step(layout)
    }

    /// Makes a turn that is planned as Local.
    pub fn local(&mut self, layout: &Layout) -> Option<Act>
        ensures { (b : BoardValue) (k : ℕ) (row : CoreRowValue) (c : CoreValue) (w : World) → StandsFor b layout.now k self.old c w → IsShared b layout.now w → slice_get b.core k ≡ Some row → stop_of c ≡ None → spec.wants b layout.now k row w.book c ≡ None → IsNext b layout.now k self.new result (spec.core_turn b layout.now k row c w) }
    {
        match self.state.step(layout) {
            Step::Made(act) => act,
            Step::Wants(_) | Step::Over => None,
        }
    }

    /// Makes a turn that is planned as Transfer, with what the bus replied.
    pub fn answer(&mut self, layout: &Layout, _request: &Request, reply: &Reply) -> Option<Act>
        ensures { (b : BoardValue) (k : ℕ) (row : CoreRowValue) (c : CoreValue) (w : World) (request : RequestValue) → StandsFor b layout.now k self.old c w → IsShared b layout.now w → slice_get b.core k ≡ Some row → stop_of c ≡ None → spec.wants b layout.now k row w.book c ≡ Some request → reply.now ≡ (transferred b layout.now k w request).reply → IsNext b layout.now k self.new result (spec.core_turn b layout.now k row c w) }
    {
        self.state.answer(layout, reply)
    }

    /// Stops a core whose plan is a Transfer, as the journal has no room for it.
    pub fn full(&mut self)
        requires { self.old.stop ≡ None }
        ensures { (b : BoardValue) (map : AddressMap) (k : ℕ) (c : CoreValue) (w : World) → StandsFor b map k self.old c w → StandsFor b map k self.new (log_full c) w }
    {
        self.state.full();
    }

    /// Its registers.
    pub fn regs(&self) -> Regs
        ensures { result ≡ self.now.regs }
    {
        self.state.regs
    }

    /// The number of its next turn.
    pub fn turns(&self) -> u64
        ensures { result ≡ self.now.clock.turns }
    {
        self.state.clock.turns
    }

    /// How many turns it made since its last transfer.
    #[inline(always)]
    pub fn since_transfer(&self) -> u64
        ensures { result ≡ self.now.clock.local }
    {
        self.state.clock.local
    }

    /// Why it stopped; None exactly where it runs.
    #[inline(always)]
    pub fn stop(&self) -> Option<Stop>
        ensures { result ≡ self.now.stop }
    {
        self.state.stop
    }
}
