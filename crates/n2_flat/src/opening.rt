//! The flat machine at the start.

ghost use Rattle.std.specs.Prelude.{◌≡◌, ◌<◌, [], ℕ, Some, None, IfOk, length, map, slice_get};
ghost use Rattle.std.specs.List.{AllByRecursion};
ghost use Rattle.n2_elf.specs.Reading.{IsSized};
ghost use Rattle.n2_parts.specs.Valid.{IsValid};
ghost use Rattle.n2_board.specs.AddressMap.{address_map};
ghost use Rattle.n2_board.specs.Placement.{first_pc as first_address, open_fault};
ghost use Rattle.n2_bus.specs.Wiring.{wiring_of};
ghost use Rattle.n2_watch.specs.Book.{first_holder as holder_at_start, start_book};
ghost use Rattle.n2_watch.specs.Watched.{IsMapOf, StandsFor};
ghost use Rattle.n2_watch.specs.World.{start_world};
ghost use Rattle.n2_front.specs.Front.{started_front};
ghost use Rattle.n2_runs.specs.FlatRun.{flat_start};
ghost use Rattle.n2_flat.specs.State.{CoreState, IsWhole, IsStarted, machine_of};

use crate::bytes::Bytes;
use crate::common::Common;
use crate::cores::FlatCore;
use crate::events::Events;
use crate::machine::Flat;
use n2_board::{Board, CoreRow, Holder, Layout, RegionClass, RegionRow, UartRow};
use n2_bus::Bus;
use n2_elf::Image;
use n2_exec::Regs;
use n2_watch::Watch;
use n2_word::NoMemory;
use std::alloc::Global;

/// A core's first program counter.
fn first_pc(row: &CoreRow, entry: u32) -> u32
    ensures { result ≡ first_address row.now entry }
{
    match row.reset {
        Some(reset) => reset,
        None => entry,
    }
}

/// The holder of a region at the start, which the board names.
fn first_holder(class: &RegionClass) -> Option<Holder>
    ensures { result ≡ holder_at_start class.now }
{
    match class {
        RegionClass::Passed { holder, .. } => Some(Holder::ByCore(*holder)),
        RegionClass::Code => None,
        RegionClass::Private(_) => None,
        RegionClass::Mutex(_) => None,
        RegionClass::Uncached => None,
    }
}

/// The holders of regions at the start.
fn holders(alloc: Global, rows: &[RegionRow]) -> Result<Vec<Option<Holder>>, NoMemory>
    ensures { IfOk result (λ holders. holders.items ≡ map (λ row. holder_at_start row.class) rows.now) }
{
    match rows
        .iter()
        .map(|row| first_holder(&row.class))
        .collect(alloc)
    {
        Ok(holders) => Ok(holders),
        Err(_) => Err(NoMemory),
    }
}

/// Nothing was sent to any UART.
fn nothing_sent(alloc: Global, rows: &[UartRow]) -> Result<Vec<Bytes>, NoMemory>
    ensures { IfOk result (λ sent. sent.items ≡ map (λ row. []) rows.now) }
{
    match rows.iter().map(|_| Bytes::new(alloc)).collect(alloc) {
        Ok(sent) => Ok(sent),
        Err(_) => Err(NoMemory),
    }
}

impl Common {
    /// What all cores share at the start.
    fn open(
        alloc: Global,
        board: &Board,
        images: &[Image],
        layout: &Layout,
    ) -> Result<Common, NoMemory>
        requires valid { IsValid board.now }
        requires images { length images.now ≡ length board.now.core }
        requires sized { AllByRecursion IsSized images.now }
        requires fits { open_fault board.now images.now ≡ None }
        requires layout { layout.now ≡ address_map board.now images.now }
        ensures { IfOk result (λ common. common ≡ record { wiring = wiring_of board.now; world = start_world board.now images.now }) }
    {
        let bus = Bus::open(alloc, board, images, layout)?;
        let sent = nothing_sent(alloc, board.uart.as_slice())?;
        let holders = holders(alloc, board.region.as_slice())?;
        Ok(Common { bus, sent, holders })
    }
}

impl FlatCore {
    /// A core of a board at the start.
    fn open(
        alloc: Global,
        board: &Board,
        k: u32,
        row: &CoreRow,
        image: &Image,
        layout: &Layout,
    ) -> Result<FlatCore, NoMemory>
        requires core { k < length board.now.core }
        requires map { IsMapOf board.now layout.now }
        ensures front { IfOk result (λ core. core.front ≡ started_front row.now image.now) }
        ensures watch { IfOk result (λ core. StandsFor board.now layout.now k core.watch (start_book board.now) []) }
    {
        let watch = Watch::open(alloc, k, board, layout)?;
        Ok(FlatCore {
            regs: Regs::at_reset(
                first_pc(row, image.entry),
                u32::from(row.cpuid),
                row.exception,
            ),
            stop: None,
            past: Events::new(alloc),
            watch,
        })
    }
}

/// The cores of a board at the start.
fn cores(
    alloc: Global,
    board: &Board,
    images: &[Image],
    layout: &Layout,
) -> Result<Vec<FlatCore>, NoMemory>
    requires images { length images.now ≡ length board.now.core }
    requires map { IsMapOf board.now layout.now }
    ensures count { IfOk result (λ cores. length cores.items ≡ length board.now.core) }
    ensures each { IfOk result (λ cores. (k : ℕ) (core : CoreState) → slice_get cores.items k ≡ Some core → IsStarted board.now images.now layout.now k core) }
{
    n2_parts::laws::valid_boards();
    let mut cores = Vec::new(alloc);
    for (k, row) in board.core.as_slice().iter().enumerate() {
        let core = FlatCore::open(alloc, board, k as u32, row, &images[k], layout)?;
        cores.push(core)?;
    }
    Ok(cores)
}

impl Flat {
    /// The flat machine of a valid board at the start: memories of zeros with the segments of the images
    /// over them in order, one image a core, and each core before its first instruction. The layout is
    /// that of the board with the images, which fit it. `NoMemory` is the only error.
    pub fn open(
        alloc: Global,
        board: &Board,
        images: &[Image],
        layout: &Layout,
    ) -> Result<Flat, NoMemory>
        requires valid { IsValid board.now }
        requires images { length images.now ≡ length board.now.core }
        requires sized { AllByRecursion IsSized images.now }
        requires fits { open_fault board.now images.now ≡ None }
        requires layout { layout.now ≡ address_map board.now images.now }
        ensures board { IfOk result (λ flat. flat.board ≡ board.now) }
        ensures start { IfOk result (λ flat. machine_of flat ≡ flat_start board.now images.now) }
        ensures whole { IfOk result (λ flat. IsWhole layout.now flat) }
    {
        n2_board::laws::fitting_images();
        n2_watch::laws::kept::start();
        let common = Common::open(alloc, board, images, layout)?;
        let cores = cores(alloc, board, images, layout)?;
        let board = board.copy(alloc)?;
        Ok(Flat {
            board,
            common,
            cores,
            recent: u32::MAX,
        })
    }
}
