//! A core before its first turn.

ghost use Rattle.std.specs.Prelude.{◌≡◌, ◌<◌, ◌≤◌, ◌^◌, length, IfOk, Some, slice_get};
ghost use Rattle.n2_parts.specs.declared.board.CoreRow.{CoreRow as CoreRowValue};
ghost use Rattle.n2_board.specs.Placement.{first_pc};
ghost use Rattle.n2_watch.specs.Book.{start_book};
ghost use Rattle.n2_watch.specs.Watched.{IsMapOf};
ghost use Rattle.n2_watch.specs.World.{World};
ghost use Rattle.n2_front.specs.Core.{started_core};
ghost use Rattle.n2_cpu.specs.Stands.{IsSound, StandsFor};

use crate::state::{Clock, State};
use n2_board::{Board, CoreRow, Layout};
use n2_dcache::DCache;
use n2_elf::Image;
use n2_exec::Regs;
use n2_icache::ICache;
use n2_watch::Watch;
use n2_word::NoMemory;
use std::alloc::Global;

/// The row of a core.
#[tactic(auto, using(std::proofs::lemmas::Option::gets))]
fn row_of(board: &Board, core: u32) -> &CoreRow
    requires { core < length board.now.core }
    ensures { slice_get board.now.core core ≡ Some result.now }
{
    &board.core.as_slice()[core as usize]
}

/// The first program counter: the board's, or else the image's.
fn first_pc(row: &CoreRow, image: &Image) -> u32
    ensures { result ≡ first_pc row.now image.now.entry }
{
    match row.reset {
        Some(pc) => pc,
        None => image.entry,
    }
}

/// The counts of a core before its first turn.
fn first_clock(core: u32, board: &Board, row: &CoreRow) -> Clock
    ensures { result ≡ record { number = core; turns = 0; local = 0; limit = board.now.turns; sample = row.now.sample; evict = row.now.evict; quiet = 0 } }
{
    Clock {
        number: core,
        turns: 0,
        local: 0,
        limit: board.turns,
        sample: u64::from(row.sample),
        evict: u64::from(row.evict),
        quiet: 0,
    }
}

impl State {
    /// A core before its first turn, with all the memory that its turns use.
    pub fn open(
        alloc: Global,
        core: u32,
        board: &Board,
        image: &Image,
        layout: &Layout,
    ) -> Result<State, NoMemory>
        requires core { core < length board.now.core }
        requires map { IsMapOf board.now layout.now }
        ensures sound { IfOk result (λ state. IsSound state) }
        ensures stands { IfOk result (λ state. (row : CoreRowValue) (w : World) → slice_get board.now.core core ≡ Some row → w.book ≡ start_book board.now → StandsFor board.now layout.now core state (started_core row image.now) w) }
    {
        n2_parts::laws::valid_boards();
        let row = row_of(board, core);
        let regs = Regs::at_reset(first_pc(row, image), u32::from(row.cpuid), row.exception);
        let clock = first_clock(core, board, row);
        let dcache = DCache::open(alloc, row.dcache)?;
        let icache = ICache::open(alloc, row.icache)?;
        let watch = Watch::open(alloc, core, board, layout)?;
        Ok(State {
            clock,
            regs,
            stop: None,
            dcache,
            icache,
            watch,
        })
    }
}
