//! The machine.

ghost use Rattle.std.specs.Prelude.{◌≡◌, ◌≢◌, ℕ, ◌≤◌, ◌<◌, ◌^◌, List, length, map, IfOk, IfErr, OnOk, IsTrue, None, Some, slice_get};
ghost use Rattle.std.specs.List.{AllByRecursion};
ghost use Rattle.n2_elf.specs.Reading.{IsSized};
ghost use Rattle.n2_parts.specs.Valid.{IsValid};
ghost use Rattle.n2_board.specs.AddressMap.{address_map};
ghost use Rattle.n2_board.specs.Placement.{open_fault};
ghost use Rattle.n2_memory.specs.Memories.{Contents};
ghost use Rattle.n2_memory.specs.Start as first;
ghost use Rattle.n2_watch.specs.Watched.{IsMapOf};
ghost use Rattle.n2_front.specs.Core.{Core as CoreValue, stop_of};
ghost use Rattle.n2_runs.specs.Machine.{Machine as Caching, start, turn, is_over};
ghost use Rattle.n2_runs.specs.FlatRun.{Flat, flat_start};
ghost use Rattle.n2_runs.specs.Along.{IsAlong, after};
ghost use Rattle.n2_runs.specs.Knows.{IsBookKept};
ghost use Rattle.n2_smp.specs.Standing.{StandsFor, AreOpened, RanStandsFor, locals_of, answer_of};

use crate::script::Script;
use crate::turns::{Turned, has_room, turn_of_core, turn_of_devices};
use n2_board::{Board, Layout, OpenFault, Stop};
use n2_bus::Bus;
use n2_cpu::Core;
use n2_elf::Image;
use n2_journal::Journal;
use n2_text::Items;
use n2_word::NoMemory;
use std::alloc::Global;
use std::marker::Model;

/// The caching machine: the cores of a board with their private caches, one bus, the script of the
/// device actor and the journal of all transfers. Contracts see its parts, and say for which states
/// of the definition it stands.
#[derive(Drop)]
pub struct Machine {
    pub(crate) board: Board,
    pub(crate) layout: Layout,
    pub(crate) cores: Vec<Core>,
    pub(crate) bus: Bus,
    pub(crate) journal: Journal,
    pub(crate) script: Script,
}

impl Model for Machine {
    ghost use Rattle.n2_smp.specs.Standing.{Parts, IsSound};

    ghost Value = { Parts };

    ghost view = { λ m. record { board = m.board; map = m.layout; cores = m.cores.items; bus = m.bus; journal = m.journal; script = m.script } };

    ghost invariant = { λ m. IsSound (record { board = m.board; map = m.layout; cores = m.cores.items; bus = m.bus; journal = m.journal; script = m.script }) };
}

impl Machine {
    /// The machine of a valid board with one image for each core, before its first turn, or the first
    /// thing that does not fit, as `Layout::open` has it. It takes here all the memory of a run.
    pub fn open(alloc: Global, board: &Board, images: &[Image]) -> Result<Machine, OpenFault>
        requires valid { IsValid board.now }
        requires images { length images.now ≡ length board.now.core }
        requires sized { AllByRecursion IsSized images.now }
        ensures board { IfOk result (λ machine. machine.board ≡ board.now) }
        ensures map { IfOk result (λ machine. machine.map ≡ address_map board.now images.now) }
        ensures stands { IfOk result (λ machine. StandsFor machine (start board.now images.now)) }
        ensures kept { OnOk result (IsBookKept board.now (address_map board.now images.now) (start board.now images.now)) }
        ensures agrees { OnOk result (IsAlong board.now (address_map board.now images.now) (first.start board.now.memory images.now) (start board.now images.now) (flat_start board.now images.now)) }
        ensures fits { OnOk result (open_fault board.now images.now ≡ None) }
        ensures fault { IfErr result (λ fault. fault ≢ OpenFault.NoMemory → open_fault board.now images.now ≡ Some fault) }
    {
        let layout = Layout::open(alloc, board, images)?;
        let cores = open_cores(alloc, board, images, &layout)?;
        let bus = Bus::open(alloc, board, images, &layout)?;
        let journal = Journal::with_room(alloc, board.journal, cores.len() as u32)?;
        Ok(Machine {
            board: board.copy(alloc)?,
            layout,
            cores,
            bus,
            journal,
            script: Script::new(),
        })
    }

    /// One turn of an actor: a core, or the device actor, whose number is the number of cores. It takes
    /// no memory.
    #[inline(always)]
    pub fn turn(&mut self, actor: u32) -> Turned
        requires { actor ≤ length self.old.board.core }
        ensures stands { (m : Caching) → StandsFor self.old m → IsBookKept self.old.board self.old.map m → StandsFor self.new (turn self.old.board self.old.map m actor).machine }
        ensures answer { (m : Caching) → StandsFor self.old m → IsBookKept self.old.board self.old.map m → result ≡ answer_of (is_over self.old.board m actor) (turn self.old.board self.old.map m actor).act }
        ensures kept { (m : Caching) → IsBookKept self.old.board self.old.map m → IsBookKept self.old.board self.old.map (turn self.old.board self.old.map m actor).machine }
        ensures agrees { (first : Contents) (m : Caching) (f : Flat) → IsAlong self.old.board self.old.map first m f → IsAlong self.old.board self.old.map first (turn self.old.board self.old.map m actor).machine (after self.old.board self.old.map f (turn self.old.board self.old.map m actor).act) }
        ensures over { result ≡ Turned.Over → self.new ≡ self.old }
        ensures board { self.new.board ≡ self.old.board }
        ensures map { self.new.map ≡ self.old.map }
    {
        if actor as usize == self.cores.len() {
            return turn_of_devices(
                &self.board,
                &mut self.bus,
                &mut self.journal,
                &mut self.script,
                actor,
            );
        }
        turn_of_core(
            &mut self.cores[actor as usize],
            &self.layout,
            &mut self.bus,
            &mut self.journal,
            actor,
        )
    }

    /// Whether an actor makes no more turns: a core that has stopped, the device actor once its script
    /// is used up or the journal is full.
    #[inline(always)]
    pub fn over(&self, actor: u32) -> bool
        requires { actor ≤ length self.now.board.core }
        ensures { (m : Caching) → StandsFor self.now m → length m.cores ≡ length self.now.board.core → result ≡ is_over self.now.board m actor }
    {
        if actor as usize == self.cores.len() {
            return !has_room(&self.journal) || self.script.event(&self.board).is_none();
        }
        self.cores[actor as usize].stop().is_some()
    }

    /// Why a core stopped; None exactly where it runs.
    pub fn stop(&self, core: u32) -> Option<Stop>
        requires { core < length self.now.board.core }
        ensures { (m : Caching) (c : CoreValue) → StandsFor self.now m → slice_get m.cores core ≡ Some c → result ≡ stop_of c }
    {
        self.cores[core as usize].stop()
    }

    /// A core, as it stands between turns.
    pub fn core(&self, core: u32) -> &Core
        requires { core < length self.now.board.core }
        ensures { slice_get self.now.cores core ≡ Some result.now }
    {
        &self.cores[core as usize]
    }

    /// Hands out the cores, the bus and the journal, with the tail of each core. The journal is within the
    /// limits of one that has a text, so its text is read as that journal.
    pub fn finish(self) -> Ran
        ensures { (m : Caching) → StandsFor self m → length m.cores ≡ length self.board.core → RanStandsFor self.board self.map result m }
    {
        n2_parts::laws::valid_boards();
        let Machine {
            board: _board,
            layout: _layout,
            cores,
            bus,
            mut journal,
            script: _script,
        } = self;
        set_tails(&mut journal, cores.as_slice());
        Ran {
            cores: Items::from_vec(cores),
            bus,
            journal,
        }
    }
}

/// What is left of a run: its cores in their order, its bus and its journal.
#[derive(Drop)]
pub struct Ran {
    pub cores: Items<Core>,
    pub bus: Bus,
    pub journal: Journal,
}

/// The cores of a board, each with its image.
fn open_cores(
    alloc: Global,
    board: &Board,
    images: &[Image],
    layout: &Layout,
) -> Result<Vec<Core>, NoMemory>
    requires map { IsMapOf board.now layout.now }
    requires images { length images.now ≡ length board.now.core }
    ensures count { IfOk result (λ cores. length cores.items ≡ length images.now) }
    ensures opened { IfOk result (λ cores. AreOpened board.now layout.now cores.items images.now) }
{
    n2_parts::laws::valid_boards();
    let mut cores = Vec::new(alloc);
    for (k, image) in images.iter().enumerate() {
        cores.push(Core::open(alloc, k as u32, board, image, layout)?)?;
    }
    Ok(cores)
}

/// Sets the tail of each core.
fn set_tails(journal: &mut Journal, cores: &[Core])
    requires few { length cores.now < 2 ^ 32 }
    requires count { length journal.old.content.tails ≡ length cores.now }
    ensures { journal.new ≡ record { content = record { entries = journal.old.content.entries; tails = locals_of cores.now }; limit = journal.old.limit } }
{
    for (k, core) in cores.iter().enumerate() {
        journal.set_tail(k as u32, core.since_transfer());
    }
}
