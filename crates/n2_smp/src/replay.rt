//! Replay: a journal is compared, row by row, with the run along the order that it tells.

ghost use Rattle.std.specs.Prelude.{◌≡◌, ◌≢◌, ℕ, ◌<◌, ◌≤◌, ◌↔◌, ◌+◌, ◌^◌, false, true, List, length, Ok, IfSome};
ghost use Rattle.n2_elf.specs.declared.image.Image.{Image as ImageValue};
ghost use Rattle.n2_parts.specs.declared.board.Board.{Board as BoardValue};
ghost use Rattle.n2_bus.specs.Transfer.{BusState};
ghost use Rattle.n2_journal.specs.declared.entry.Entry.{Entry as EntryValue};
ghost use Rattle.n2_runs.specs.Machine.{Machine as Caching, start, turn};
ghost use Rattle.n2_runs.specs.Knows.{IsBookKept};
ghost use Rattle.n2_runs.specs.Recorded.{Records};
ghost use Rattle.n2_runs.specs.Replay.{added, quiet_turn, quiet_turns, entry_turn, entry_row, entry_rows, tail_row, tail_rows, replayed};
ghost use Rattle.n2_smp.specs.Standing.{StandsFor, StandsAt, IsReady};
ghost use Rattle.n2_smp.specs.Replayed.{Follows, FollowsRows, IsReplayed, IsQuietAt, requested, asks_same};

use crate::machine::Machine;
use crate::turns::{has_room, request_of};
use n2_board::Layout;
use n2_bus::Request;
use n2_cpu::{Core, Plan, Step};
use n2_journal::{Entry, Journal};

/// The first row of a journal's text that differs from the run along its order, counted from 1: row 1
/// is the heading, then each entry has a row, then the tail of each core, and then the end.
#[derive(Clone, Copy, Debug, PartialEq, Eq)]
pub struct Wrong {
    pub row: u64,
}

/// A turn of a core, if it is one without a transfer; else nothing has changed.
#[inline(always)]
pub fn quiet_turn_of_core(core: &mut Core, layout: &Layout, journal: &Journal, actor: u32) -> bool
    requires { (behind : BusState) × IsReady layout.now actor core.old behind journal.now }
    ensures quiet { (b : BoardValue) (behind : BusState) (m : Caching) → StandsAt b layout.now actor core.old behind journal.now m → IsBookKept b layout.now m → IsQuietAt b layout.now actor core.old core.new behind journal.now m result }
    ensures same { result ≡ false → core.new ≡ core.old }
{
    match core.step(layout) {
        Step::Made(_act) => true,
        Step::Wants(_request) => {
            if has_room(journal) {
                return false;
            }
            core.full();
            true
        }
        Step::Over => false,
    }
}

impl Machine {
    /// A turn of an actor, if it is one without a transfer; else nothing has changed. The device actor
    /// makes none.
    fn quiet_turn(&mut self, actor: u32) -> bool
        ensures follows { (m : Caching) → StandsFor self.old m → IsBookKept self.old.board self.old.map m → Follows self.new result (quiet_turn self.old.board self.old.map m actor) }
        ensures board { self.new.board ≡ self.old.board }
        ensures map { self.new.map ≡ self.old.map }
    {
        if actor as usize >= self.cores.len() {
            return false;
        }
        quiet_turn_of_core(
            &mut self.cores[actor as usize],
            &self.layout,
            &self.journal,
            actor,
        )
    }

    /// So many of them, up to the first turn that is none.
    fn quiet_turns(&mut self, actor: u32, count: u64) -> bool
        ensures follows { (m : Caching) → StandsFor self.old m → IsBookKept self.old.board self.old.map m → Follows self.new result (quiet_turns self.old.board self.old.map actor count m) }
        ensures board { self.new.board ≡ self.old.board }
        ensures map { self.new.map ≡ self.old.map }
    {
        for _made in 0..count {
            if !self.quiet_turn(actor) {
                return false;
            }
        }
        true
    }

    /// The transfer that the next turn of an actor makes, if it makes one.
    fn next_request(&self, actor: u32) -> Option<Request>
        ensures request { (m : Caching) → StandsFor self.now m → IsBookKept self.now.board self.now.map m → result ≡ requested self.now.board self.now.map m actor }
        ensures actor { IfSome result (λ _. actor ≤ length self.now.board.core) }
    {
        if !has_room(&self.journal) {
            return None;
        }
        if actor as usize > self.cores.len() {
            return None;
        }
        if actor as usize == self.cores.len() {
            let event = self.script.event(&self.board)?;
            return Some(request_of(event));
        }
        match self.cores[actor as usize].plan(&self.layout) {
            Plan::Transfer(request) => Some(request),
            Plan::Local => None,
            Plan::Over => None,
        }
    }

    /// Whether the next turn of an entry's actor asks for its transfer.
    fn asks(&self, entry: &Entry) -> bool
        ensures actor { result ≡ true → entry.now.actor ≤ length self.now.board.core }
        ensures asks { (m : Caching) → StandsFor self.now m → IsBookKept self.now.board self.now.map m → result ≡ asks_same entry.now (added m (turn self.now.board self.now.map m entry.now.actor).machine) }
    {
        match self.next_request(entry.actor) {
            Some(request) => is_same_request(&entry.request, &request),
            None => false,
        }
    }

    /// The turn of an entry: its actor makes just this transfer and has this reply.
    fn entry_turn(&mut self, entry: &Entry) -> bool
        ensures follows { (m : Caching) → StandsFor self.old m → IsBookKept self.old.board self.old.map m → Follows self.new result (entry_turn self.old.board self.old.map entry.now m) }
        ensures board { self.new.board ≡ self.old.board }
        ensures map { self.new.map ≡ self.old.map }
    {
        if !self.asks(entry) {
            return false;
        }
        let before = self.journal.entries().len();
        let _ = self.turn(entry.actor);
        match self.journal.entries().get(before) {
            Some(made) => is_same(entry, made),
            None => false,
        }
    }

    /// The row of an entry: the turns without a transfer that it counts, and then its own.
    fn entry_row(&mut self, entry: &Entry) -> bool
        ensures follows { (m : Caching) → StandsFor self.old m → IsBookKept self.old.board self.old.map m → Follows self.new result (entry_row self.old.board self.old.map entry.now m) }
        ensures board { self.new.board ≡ self.old.board }
        ensures map { self.new.map ≡ self.old.map }
    {
        if !self.quiet_turns(entry.actor, entry.local) {
            return false;
        }
        self.entry_turn(entry)
    }

    /// The row of a tail: the turns that it counts, after which its core has stopped.
    fn tail_row(&mut self, core: u32, tail: u64) -> bool
        requires { core < length self.old.board.core }
        ensures follows { (m : Caching) → StandsFor self.old m → IsBookKept self.old.board self.old.map m → Follows self.new result (tail_row self.old.board self.old.map core tail m) }
        ensures board { self.new.board ≡ self.old.board }
        ensures map { self.new.map ≡ self.old.map }
    {
        if !self.quiet_turns(core, tail) {
            return false;
        }
        self.over(core)
    }

    fn core_count(&self) -> u32
        ensures count { result ≡ length self.now.board.core }
        ensures few { result ≤ 8 }
    {
        n2_parts::laws::valid_boards();
        self.cores.len() as u32
    }

    /// The first row of entries that differs, if one does; the first of them is row 2.
    fn entry_rows(&mut self, entries: &[Entry]) -> Option<u64>
        ensures follows { (m : Caching) → StandsFor self.old m → IsBookKept self.old.board self.old.map m → FollowsRows self.new result (entry_rows self.old.board self.old.map 2 entries.now m) }
        ensures board { self.new.board ≡ self.old.board }
        ensures map { self.new.map ≡ self.old.map }
    {
        for (i, entry) in entries.iter().enumerate() {
            if !self.entry_row(entry) {
                return Some(i as u64 + 2);
            }
        }
        None
    }

    /// The first row of tails and of the end that differs, if one does; the first tail is this row.
    fn tail_rows(&mut self, first: u64, tails: &[u64]) -> Option<u64>
        requires { first < 2 ^ 63 + 2 }
        ensures follows { (m : Caching) → StandsFor self.old m → IsBookKept self.old.board self.old.map m → FollowsRows self.new result (tail_rows self.old.board self.old.map first 0 tails.now m) }
        ensures board { self.new.board ≡ self.old.board }
        ensures map { self.new.map ≡ self.old.map }
    {
        let count = self.core_count();
        for (core, tail) in tails.iter().enumerate() {
            if core >= count as usize {
                return Some(first + core as u64);
            }
            if !self.tail_row(core as u32, *tail) {
                return Some(first + core as u64);
            }
        }
        let row = first + tails.len() as u64;
        if tails.len() != count as usize {
            return Some(row);
        }
        if !self.over(count) {
            return Some(row);
        }
        None
    }

    fn rows(&mut self, journal: &Journal) -> Result<(), Wrong>
        ensures replayed { (m : Caching) → StandsFor self.old m → IsBookKept self.old.board self.old.map m → IsReplayed self.new result (replayed self.old.board self.old.map m journal.now.content) }
        ensures board { self.new.board ≡ self.old.board }
        ensures map { self.new.map ≡ self.old.map }
    {
        match self.entry_rows(journal.entries()) {
            Some(row) => return Err(Wrong { row }),
            None => (),
        }
        match self.tail_rows(journal.entries().len() as u64 + 2, journal.tails()) {
            Some(row) => Err(Wrong { row }),
            None => Ok(()),
        }
    }

    /// Replays a journal from the machine's state on, which is the start where no turn was made. Ok comes
    /// exactly where the journal is that of a finished run, and then the machine is at its end; else the
    /// row is the first that differs.
    pub fn replay(&mut self, journal: &Journal) -> Result<(), Wrong>
        ensures replayed { (m : Caching) → StandsFor self.old m → IsBookKept self.old.board self.old.map m → IsReplayed self.new result (replayed self.old.board self.old.map m journal.now.content) }
        ensures records { (images : List ImageValue) → length images ≡ length self.old.board.core → StandsFor self.old (start self.old.board images) → (result ≡ Ok tt) ↔ Records self.old.board self.old.map (start self.old.board images) journal.now.content }
        ensures board { self.new.board ≡ self.old.board }
        ensures map { self.new.map ≡ self.old.map }
    {
        self.rows(journal)
    }
}

fn is_same_request(request: &Request, other: &Request) -> bool
    ensures { (result ≡ true) ↔ (request.now ≡ other.now) }
{
    *request == *other
}

fn is_same(entry: &Entry, made: &Entry) -> bool
    ensures { (result ≡ true) ↔ (entry.now ≡ made.now) }
{
    *entry == *made
}
