//! What an instruction leaves to do, and what a core does of it.

ghost use Rattle.std.specs.Prelude.{◌≡◌, ◌<◌, IsTrue, None, true, false, OnOk, OnErr};
ghost use Rattle.n2_word.specs.Words.{is_aligned};
ghost use Rattle.n2_watch.specs.declared.access.Access.TheVariants as accesses;
ghost use Rattle.n2_watch.specs.Discipline.{breach};
ghost use Rattle.n2_front.specs.Front.{stopped};
ghost use Rattle.n2_front.specs.Tasks as tasks;
ghost use Rattle.n2_front.specs.Retire.{who, done, performed};
ghost use Rattle.n2_flat.specs.State.{IsWatched, IsAt, acted_by};

use crate::common::Common;
use crate::cores::FlatCore;
use n2_board::{Board, Layout, Stop};
use n2_exec::extended;
use n2_insn::DataOp;
use n2_word::{NoMemory, Width, line_of};

impl FlatCore {
    /// The core stops.
    #[inline(always)]
    pub fn halt(&mut self, stop: Stop)
        ensures front { self.new.front ≡ stopped self.old.front stop }
        ensures watch { self.new.watch ≡ self.old.watch }
    {
        self.stop = Some(stop);
    }

    /// A load through the cache that the judge let pass.
    #[inline(always)]
    fn load_let(
        &mut self,
        board: &Board,
        k: u32,
        layout: &Layout,
        common: &Common,
        place: u32,
        address: u32,
        width: Width,
        signed: bool,
        to: u8,
    ) -> Result<(), NoMemory>
        requires at { IsAt board.now layout.now k common.now self.old }
        requires aligned { IsTrue (is_aligned address width) }
        requires register { to < 32 }
        requires unbroken { breach board.now layout.now (who board.now k self.old.front common.now.world.book) (accesses.Cached address false) width ≡ None }
        ensures done { OnOk result (acted_by self.new common.now ≡ done board.now layout.now k self.old.front common.now.world (tasks.Load address width signed to)) }
        ensures same { OnErr result (self.new ≡ self.old) }
        ensures watched { IsWatched board.now layout.now k common.now.world.book self.new }
    {
        self.touch(place, line_of(address), false)?;
        let value = common.read(address, width);
        self.regs.put_loaded(to, extended(value, width, signed));
        Ok(())
    }

    /// A load through the cache.
    #[inline(always)]
    pub fn load(
        &mut self,
        board: &Board,
        k: u32,
        layout: &Layout,
        common: &Common,
        word: u32,
        address: u32,
        width: Width,
        signed: bool,
        to: u8,
    ) -> Result<(), NoMemory>
        requires at { IsAt board.now layout.now k common.now self.old }
        requires aligned { IsTrue (is_aligned address width) }
        requires register { to < 32 }
        ensures done { OnOk result (acted_by self.new common.now ≡ performed board.now layout.now k self.old.front common.now.world word (tasks.Load address width signed to)) }
        ensures same { OnErr result (self.new ≡ self.old) }
        ensures watched { IsWatched board.now layout.now k common.now.world.book self.new }
    {
        match self.judge_cached(layout, address, width, false, word) {
            Ok(place) => {
                self.load_let(board, k, layout, common, place, address, width, signed, to)
            }
            Err(stop) => {
                self.halt(stop);
                Ok(())
            }
        }
    }

    /// A store through the cache that the judge let pass.
    #[inline(always)]
    fn store_let(
        &mut self,
        board: &Board,
        k: u32,
        layout: &Layout,
        common: &mut Common,
        place: u32,
        address: u32,
        width: Width,
        value: u32,
    ) -> Result<(), NoMemory>
        requires at { IsAt board.now layout.now k common.old self.old }
        requires aligned { IsTrue (is_aligned address width) }
        requires unbroken { breach board.now layout.now (who board.now k self.old.front common.old.world.book) (accesses.Cached address true) width ≡ None }
        ensures done { OnOk result (acted_by self.new common.new ≡ done board.now layout.now k self.old.front common.old.world (tasks.Store address width value)) }
        ensures same { OnErr result (self.new ≡ self.old) }
        ensures common { OnErr result (common.new ≡ common.old) }
        ensures wiring { common.new.wiring ≡ common.old.wiring }
        ensures watched { IsWatched board.now layout.now k common.new.world.book self.new }
    {
        self.touch(place, line_of(address), true)?;
        common.write(address, width, value);
        self.regs.advance();
        Ok(())
    }

    /// A store through the cache.
    #[inline(always)]
    pub fn store(
        &mut self,
        board: &Board,
        k: u32,
        layout: &Layout,
        common: &mut Common,
        word: u32,
        address: u32,
        width: Width,
        value: u32,
    ) -> Result<(), NoMemory>
        requires at { IsAt board.now layout.now k common.old self.old }
        requires aligned { IsTrue (is_aligned address width) }
        ensures done { OnOk result (acted_by self.new common.new ≡ performed board.now layout.now k self.old.front common.old.world word (tasks.Store address width value)) }
        ensures same { OnErr result (self.new ≡ self.old) }
        ensures common { OnErr result (common.new ≡ common.old) }
        ensures wiring { common.new.wiring ≡ common.old.wiring }
        ensures watched { IsWatched board.now layout.now k common.new.world.book self.new }
    {
        match self.judge_cached(layout, address, width, true, word) {
            Ok(place) => self.store_let(board, k, layout, common, place, address, width, value),
            Err(stop) => {
                self.halt(stop);
                Ok(())
            }
        }
    }

    /// A data cache operation.
    #[inline(never)]
    pub fn line_op(
        &mut self,
        board: &Board,
        k: u32,
        layout: &Layout,
        common: &Common,
        word: u32,
        op: DataOp,
        address: u32,
    ) -> Result<(), NoMemory>
        requires at { IsAt board.now layout.now k common.now self.old }
        ensures done { OnOk result (acted_by self.new common.now ≡ performed board.now layout.now k self.old.front common.now.world word (tasks.LineOp op address)) }
        ensures same { OnErr result (self.new ≡ self.old) }
        ensures watched { IsWatched board.now layout.now k common.now.world.book self.new }
    {
        match self.judge_op(layout, op, address, word) {
            Some(stop) => {
                self.halt(stop);
                Ok(())
            }
            None => self.line_op_let(board, k, layout, common, op, address),
        }
    }

    /// A data cache operation that the judge let pass.
    fn line_op_let(
        &mut self,
        board: &Board,
        k: u32,
        layout: &Layout,
        common: &Common,
        op: DataOp,
        address: u32,
    ) -> Result<(), NoMemory>
        requires at { IsAt board.now layout.now k common.now self.old }
        ensures done { OnOk result (acted_by self.new common.now ≡ done board.now layout.now k self.old.front common.now.world (tasks.LineOp op address)) }
        ensures same { OnErr result (self.new ≡ self.old) }
        ensures watched { IsWatched board.now layout.now k common.now.world.book self.new }
    {
        self.clean(layout, op, address)?;
        self.regs.advance();
        Ok(())
    }
}
