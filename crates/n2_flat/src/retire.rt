//! One act of a core: an interrupt, an instruction, or a stop.

ghost use Rattle.std.specs.Prelude.{◌≡◌, ◌≢◌, ◌%◌, None, Some, OnOk, OnErr};
ghost use Rattle.n2_exec.specs.declared.Asked.TheVariants as wishes;
ghost use Rattle.n2_exec.specs.Outcomes.{IsProper};
ghost use Rattle.n2_front.specs.Tasks.{task_of, stop_for};
ghost use Rattle.n2_front.specs.Retire.{who, performed, with_word, fetched, retired};
ghost use Rattle.n2_watch.specs.declared.access.Access.TheVariants as accesses;
ghost use Rattle.n2_watch.specs.Discipline.{violation, breach};
ghost use Rattle.n2_word.specs.Lines.{line as line_number};
ghost use Rattle.n2_board.specs.Access as rules;
ghost use Rattle.n2_board.specs.declared.access.Violation.{Violation as ViolationValue};
ghost use Rattle.n2_watch.specs.Watched.{IsMapOf};
ghost use Rattle.n2_flat.specs.State.{IsWatched, IsAt, IsFetchable, acted_by};

use crate::common::Common;
use crate::cores::FlatCore;
use n2_board::{Board, Kind, Layout, Refusal, Route, Stop, Violation};
use n2_exec::{Asked, act_word, waiting};
use n2_word::{NoMemory, Width, line_of};

/// The stop for a fetch that is cut off.
fn cut_off(wrong: Violation, pc: u32) -> Stop
    ensures { result ≡ stop_for (violation wrong (line_number pc)) pc 0 pc }
{
    match wrong {
        Violation::Stray => Stop::Stray(pc),
        Violation::Separate => Stop::Refused(Refusal {
            kind: Kind::Separate,
            pc,
            insn: 0,
            address: pc,
            line: line_of(pc),
        }),
    }
}

/// Why a fetch is cut off, if it is. A fetch from the line of the last one that was not asks nothing.
#[inline(always)]
fn fetch_violation(board: &Board, layout: &Layout, recent: &mut u32, pc: u32) -> Option<Violation>
    requires map { IsMapOf board.now layout.now }
    requires recent { IsFetchable layout.now recent.old }
    ensures wrong { result ≡ rules.fetch_violation layout.now pc }
    ensures recent { IsFetchable layout.now recent.new }
    ensures line { (wrong : ViolationValue) → result ≡ Some wrong → recent.new ≡ recent.old }
{
    if pc / 32 == *recent {
        return None;
    }
    match layout.fetch_violation(pc) {
        Some(wrong) => Some(wrong),
        None => {
            *recent = pc / 32;
            None
        }
    }
}

impl FlatCore {
    /// What an instruction leaves to do. Want of memory comes where the registers are those before it.
    #[inline(always)]
    fn perform(
        &mut self,
        board: &Board,
        k: u32,
        layout: &Layout,
        common: &mut Common,
        word: u32,
        asked: Asked,
    ) -> Result<(), NoMemory>
        requires at { IsAt board.now layout.now k common.old self.old }
        requires proper { IsProper asked }
        ensures done { OnOk result (acted_by self.new common.new ≡ performed board.now layout.now k self.old.front common.old.world word (task_of asked)) }
        ensures left { OnErr result (asked ≢ wishes.Done) }
        ensures same { OnErr result (self.new ≡ self.old) }
        ensures common { OnErr result (common.new ≡ common.old) }
        ensures wiring { common.new.wiring ≡ common.old.wiring }
        ensures watched { IsWatched board.now layout.now k common.new.world.book self.new }
    {
        match asked {
            Asked::Done => Ok(()),
            Asked::Load {
                address,
                width,
                signed,
                io,
                to,
            } => match Route::of(address, io) {
                Route::Cached => {
                    self.load(board, k, layout, common, word, address, width, signed, to)
                }
                Route::Bypassing => {
                    self.load_past(board, k, layout, common, word, address, width, signed, to)
                }
            },
            Asked::Store {
                address,
                width,
                value,
                io,
            } => match Route::of(address, io) {
                Route::Cached => self.store(board, k, layout, common, word, address, width, value),
                Route::Bypassing => {
                    self.store_past(board, k, layout, common, word, address, width, value)
                }
            },
            Asked::LineOp { op, address } => {
                self.line_op(board, k, layout, common, word, op, address)
            }
            Asked::CodeOp { .. } => {
                self.regs.advance();
                Ok(())
            }
            Asked::Raise(_) => {
                self.regs.take_exception();
                Ok(())
            }
            Asked::Broke => {
                self.halt(Stop::Broke);
                Ok(())
            }
        }
    }

    /// An instruction's word.
    #[inline(always)]
    fn execute(
        &mut self,
        board: &Board,
        k: u32,
        layout: &Layout,
        common: &mut Common,
        word: u32,
    ) -> Result<(), NoMemory>
        requires { IsAt board.now layout.now k common.old self.old }
        ensures done { OnOk result (acted_by self.new common.new ≡ with_word board.now layout.now k self.old.front common.old.world word) }
        ensures same { OnErr result (self.new ≡ self.old) }
        ensures common { OnErr result (common.new ≡ common.old) }
        ensures wiring { common.new.wiring ≡ common.old.wiring }
        ensures watched { IsWatched board.now layout.now k common.new.world.book self.new }
    {
        let asked = act_word(&mut self.regs, word);
        self.perform(board, k, layout, common, word, asked)
    }

    /// The next instruction.
    #[inline(always)]
    fn fetch(
        &mut self,
        board: &Board,
        k: u32,
        layout: &Layout,
        common: &mut Common,
        recent: &mut u32,
    ) -> Result<(), NoMemory>
        requires at { IsAt board.now layout.now k common.old self.old }
        requires aligned { self.old.front.regs.pc % 4 ≡ 0 }
        requires recent { IsFetchable layout.now recent.old }
        ensures done { OnOk result (acted_by self.new common.new ≡ fetched board.now layout.now k self.old.front common.old.world (breach board.now layout.now (who board.now k self.old.front common.old.world.book) (accesses.Fetch self.old.front.regs.pc) Width.Word)) }
        ensures same { OnErr result (self.new ≡ self.old) }
        ensures common { OnErr result (common.new ≡ common.old) }
        ensures line { OnErr result (recent.new ≡ recent.old) }
        ensures wiring { common.new.wiring ≡ common.old.wiring }
        ensures watched { IsWatched board.now layout.now k common.new.world.book self.new }
        ensures recent { IsFetchable layout.now recent.new }
    {
        n2_board::laws::in_memory();
        let pc = self.regs.pc;
        let before = *recent;
        match fetch_violation(board, layout, recent, pc) {
            Some(wrong) => {
                self.halt(cut_off(wrong, pc));
                Ok(())
            }
            None => {
                let word = common.word(pc);
                match self.execute(board, k, layout, common, word) {
                    Ok(()) => Ok(()),
                    Err(none) => {
                        *recent = before;
                        Err(none)
                    }
                }
            }
        }
    }

    /// An interrupt that waits, or the next instruction.
    #[inline(always)]
    #[tactic(auto, unfolding(n2_front::specs::Retire::retired))]
    pub fn retire(
        &mut self,
        board: &Board,
        k: u32,
        layout: &Layout,
        common: &mut Common,
        recent: &mut u32,
    ) -> Result<(), NoMemory>
        requires at { IsAt board.now layout.now k common.old self.old }
        requires aligned { self.old.front.regs.pc % 4 ≡ 0 }
        requires recent { IsFetchable layout.now recent.old }
        ensures done { OnOk result (acted_by self.new common.new ≡ retired board.now layout.now k self.old.front common.old.world) }
        ensures same { OnErr result (self.new ≡ self.old) }
        ensures common { OnErr result (common.new ≡ common.old) }
        ensures line { OnErr result (recent.new ≡ recent.old) }
        ensures wiring { common.new.wiring ≡ common.old.wiring }
        ensures watched { IsWatched board.now layout.now k common.new.world.book self.new }
        ensures recent { IsFetchable layout.now recent.new }
    {
        if waiting(&self.regs) {
            self.regs.take_interrupt();
            return Ok(());
        }
        self.fetch(board, k, layout, common, recent)
    }
}
