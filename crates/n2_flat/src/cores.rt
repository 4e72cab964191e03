//! A core of the flat machine: its front, and the watch that judges it.

ghost use Rattle.std.specs.Prelude.{◌≡◌, ◌≢◌, ◌<◌, ℕ, Option, Some, None, Ok, Err, OnOk, OnErr};
ghost use Rattle.n2_word.specs.declared.Width.{Width as WidthValue};
ghost use Rattle.n2_word.specs.Lines.{line as line_number};
ghost use Rattle.n2_parts.specs.declared.board.Board.{Board as BoardValue};
ghost use Rattle.n2_board.specs.AddressMap.{AddressMap};
ghost use Rattle.n2_watch.specs.declared.past.Past.TheVariants as events;
ghost use Rattle.n2_watch.specs.declared.access.Access.TheVariants as accesses;
ghost use Rattle.n2_watch.specs.Book.{Book};
ghost use Rattle.n2_watch.specs.Discipline as rules;
ghost use Rattle.n2_watch.specs.Discipline.{Strays, Breaks, breach};
ghost use Rattle.n2_watch.specs.Watched.{StandsFor, address_of};
ghost use Rattle.n2_front.specs.Front.{noted, stopped};
ghost use Rattle.n2_front.specs.Tasks as tasks;
ghost use Rattle.n2_front.specs.Retire.{who};
ghost use Rattle.n2_flat.specs.State.{IsWatched, HasSlots, stop_of, stop_in};

use crate::events::Events;
use n2_board::{Direction, Layout, Refusal, Route, Stop, Violation};
use n2_exec::Regs;
use n2_insn::DataOp;
use n2_watch::{Access, Broken, Done, Judged, Past, Watch};
use n2_word::{NoMemory, Width};
use std::marker::Model;

/// A core: registers, why it stopped, past events and watch.
#[derive(Drop)]
pub struct FlatCore {
    pub regs: Regs,
    pub stop: Option<Stop>,
    pub past: Events,
    pub watch: Watch,
}

impl Model for FlatCore {
    ghost use Rattle.n2_flat.specs.State.{CoreState};

    ghost Value = { CoreState };

    ghost view = { λ c. record { front = record { regs = c.regs; stop = c.stop; past = c.past }; watch = c.watch } };
}

/// The stop for an access that is refused, by the program counter and the instruction's word.
fn refused(broken: Broken, pc: u32, word: u32) -> Stop
    ensures { result ≡ tasks.stop_for (Breaks broken.kind broken.line) pc word broken.address }
{
    Stop::Refused(Refusal {
        kind: broken.kind,
        pc,
        insn: word,
        address: broken.address,
        line: broken.line,
    })
}

/// Whether a load or a store.
#[inline(always)]
fn direction(store: bool) -> Direction
    ensures { result ≡ rules.direction store }
{
    if store {
        Direction::Store
    } else {
        Direction::Load
    }
}

impl FlatCore {
    /// The stop for an access that does not stray, if it is refused.
    #[inline(always)]
    fn judge(&self, layout: &Layout, access: &Access, word: u32) -> Option<Stop>
        ensures { (b : BoardValue) (k : ℕ) (book : Book) (width : WidthValue) → StandsFor b layout.now k self.now.watch book self.now.front.past → breach b layout.now (who b k self.now.front book) access.now width ≢ Some Strays → result ≡ stop_of self.now.front.regs.pc word (address_of access.now) (breach b layout.now (who b k self.now.front book) access.now width) }
    {
        match self.watch.judge(layout, access) {
            Some(broken) => Some(refused(broken, self.regs.pc, word)),
            None => None,
        }
    }

    /// The stop for a load or store through the cache, if it strays or is refused; else the place where
    /// its note looks for the record of its line first.
    #[inline(always)]
    pub fn judge_cached(
        &self,
        layout: &Layout,
        address: u32,
        width: Width,
        store: bool,
        word: u32,
    ) -> Result<u32, Stop>
        ensures { (b : BoardValue) (k : ℕ) (book : Book) → StandsFor b layout.now k self.now.watch book self.now.front.past → stop_in result ≡ stop_of self.now.front.regs.pc word address (breach b layout.now (who b k self.now.front book) (accesses.Cached address store) width) }
    {
        match self.watch.judge_cached(layout, address, width, store) {
            Judged::Passed(place) => Ok(place),
            Judged::Refused(broken) => Err(refused(broken, self.regs.pc, word)),
            Judged::Stray => Err(Stop::Stray(address)),
        }
    }

    /// The stop for a load or store past the cache, if it strays or is refused.
    #[inline(always)]
    pub fn judge_past(
        &self,
        k: u32,
        layout: &Layout,
        address: u32,
        width: Width,
        store: bool,
        value: u32,
        word: u32,
    ) -> Option<Stop>
        ensures { (b : BoardValue) (book : Book) → StandsFor b layout.now k self.now.watch book self.now.front.past → result ≡ stop_of self.now.front.regs.pc word address (breach b layout.now (who b k self.now.front book) (accesses.Bypass address store value) width) }
    {
        let access = Access::Bypass {
            address,
            store,
            value,
        };
        match layout.data_target(k, address, width, Route::Bypassing, direction(store)) {
            Err(Violation::Stray) => Some(Stop::Stray(address)),
            Err(Violation::Separate) => self.judge(layout, &access, word),
            Ok(_) => self.judge(layout, &access, word),
        }
    }

    /// The stop for a data cache operation, if it is refused.
    pub fn judge_op(&self, layout: &Layout, op: DataOp, address: u32, word: u32) -> Option<Stop>
        ensures { (b : BoardValue) (k : ℕ) (book : Book) (width : WidthValue) → StandsFor b layout.now k self.now.watch book self.now.front.past → result ≡ stop_of self.now.front.regs.pc word address (breach b layout.now (who b k self.now.front book) (accesses.Op op address) width) }
    {
        self.judge(layout, &Access::Op { op, address }, word)
    }

    /// Notes a load or store of a line that the judge let pass, with the place that it gave. Want of
    /// memory comes too where the watch's clock is at the end of its type.
    #[inline(always)]
    pub fn touch(&mut self, place: u32, line: u32, store: bool) -> Result<(), NoMemory>
        ensures noted { OnOk result (self.new.front ≡ noted self.old.front (events.Touch line store)) }
        ensures same { OnErr result (self.new ≡ self.old) }
        ensures watched { OnOk result ((b : BoardValue) (map : AddressMap) (k : ℕ) (book : Book) (address : ℕ) (width : WidthValue) → IsWatched b map k book self.old → line ≡ line_number address → breach b map (who b k self.old.front book) (accesses.Cached address store) width ≡ None → IsWatched b map k book self.new) }
    {
        if !self.watch.has_room() {
            return Err(NoMemory);
        }
        self.past.push(Past::Touch { line, store })?;
        self.watch.note_touched_at(place, line, store);
        Ok(())
    }

    /// Notes a data cache operation.
    pub fn clean(&mut self, layout: &Layout, op: DataOp, address: u32) -> Result<(), NoMemory>
        requires { HasSlots self.old.watch }
        ensures noted { OnOk result (self.new.front ≡ noted self.old.front (events.Clean op address)) }
        ensures same { OnErr result (self.new ≡ self.old) }
        ensures watched { OnOk result ((b : BoardValue) (map : AddressMap) (k : ℕ) (book : Book) → IsWatched b map k book self.old → IsWatched b map k book self.new) }
    {
        if !self.watch.has_room() {
            return Err(NoMemory);
        }
        self.past.push(Past::Clean { op, address })?;
        self.watch.note(layout, &Done::Cleaned { op, address });
        Ok(())
    }
}
