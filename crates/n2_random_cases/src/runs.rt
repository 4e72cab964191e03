//! A run of both machines by a random order.

ghost use Rattle.std.specs.Prelude.{◌≡◌, ◌<◌, ◌≤◌, ◌^◌, length, None};
ghost use Rattle.std.specs.List.{AllByRecursion};
ghost use Rattle.n2_elf.specs.Reading.{IsSized};
ghost use Rattle.n2_parts.specs.Valid.{IsValid};
ghost use Rattle.n2_parts.specs.MemoryLines.{line_count};
ghost use Rattle.n2_board.specs.AddressMap.{address_map};
ghost use Rattle.n2_board.specs.Placement.{open_fault};
ghost use Rattle.n2_flat.specs.State.{IsWhole};
ghost use Rattle.n2_driver.specs.Beside.{AreBeside};

use crate::counts::{Counts, add, add_all};
use crate::followed::Followed;
use crate::machines::{
    agree, all_stopped, count_stops, flat_line, layout_of, line_behind, machine_of,
};
use crate::sent::sent_in;
use crate::words::Words;
use n2_board::{Board, Layout};
use n2_bus::{Bus, Request};
use n2_cases::NoAnswer;
use n2_driver::turn_beside;
use n2_elf::Image;
use n2_exec::waiting;
use n2_flat::Flat;
use n2_journal::Entry;
use n2_parts::MemoryRow;
use n2_smp::{Machine, Ran, Turned};
use n2_word::NoMemory;
use std::alloc::Global;

/// How many turns are tried in a run.
const TURNS: u64 = 200_000;

/// How many lines are compared: those up to the last memory of every board.
const LINES: u32 = 0x440;

/// Where the machines differ.
#[derive(Clone, Copy, Debug)]
pub enum Difference {
    /// In a core after so many turns.
    Turn(u64),
    /// In what UARTs were sent, and when.
    Bytes,
    /// In a line of memory.
    Line(u32),
}

/// Picks random actors. An actor has the next turn too but once in so many turns.
#[derive(Drop)]
pub struct Picker {
    words: Words,
    stay: u32,
    actor: u32,
    ghost some: { 0 < stay },
}

impl Picker {
    /// By the numbers that are left of a generator.
    pub fn new(words: Words) -> Picker {
        let mut words = words;
        let stay = 1 + words.below(12);
        Picker {
            words,
            stay,
            actor: 0,
        }
    }

    /// The actor of the next turn. The last number is that of the device actor.
    fn next(&mut self, machine: &Machine, cores: u32) -> u32
        requires { cores ≡ length machine.now.board.core }
        ensures { result ≤ cores }
    {
        let moves = self.words.once_in(self.stay);
        if !moves && self.actor <= cores && !machine.over(self.actor) {
            return self.actor;
        }
        self.actor = self.words.below(cores.saturating_add(1));
        self.actor
    }
}

/// A turn of a core on both machines.
fn core_turn(
    machine: &mut Machine,
    flat: &mut Flat,
    layout: &Layout,
    core: u32,
    followed: &mut Followed,
    counts: &mut Counts,
) -> Result<(), NoMemory>
    requires beside { AreBeside machine.old layout.now flat.old }
    requires core { core < length machine.old.board.core }
    ensures beside { AreBeside machine.new layout.now flat.new }
    ensures board { machine.new.board ≡ machine.old.board }
{
    let turn = machine.core(core).turns();
    let waits = waiting(&flat.regs(core));
    let turned = turn_beside(machine, flat, layout, core)?;
    if let Turned::Over = turned {
        return Ok(());
    }
    counts.add_turn(&turned, waits);
    followed.note(machine, flat, core, turn)
}

/// A turn of the device actor on both machines.
fn device_turn(
    machine: &mut Machine,
    flat: &mut Flat,
    layout: &Layout,
    actor: u32,
    counts: &mut Counts,
) -> Result<(), NoMemory>
    requires beside { AreBeside machine.old layout.now flat.old }
    requires actor { actor ≤ length machine.old.board.core }
    ensures beside { AreBeside machine.new layout.now flat.new }
    ensures board { machine.new.board ≡ machine.old.board }
{
    let turned = turn_beside(machine, flat, layout, actor)?;
    if let Turned::Acted(_) = turned {
        counts.add_turn(&turned, false);
    }
    Ok(())
}

/// A turn of an actor on both machines.
fn turn(
    machine: &mut Machine,
    flat: &mut Flat,
    layout: &Layout,
    cores: u32,
    actor: u32,
    followed: &mut Followed,
    counts: &mut Counts,
) -> Result<(), NoMemory>
    requires beside { AreBeside machine.old layout.now flat.old }
    requires cores { cores ≡ length machine.old.board.core }
    requires actor { actor ≤ cores }
    ensures beside { AreBeside machine.new layout.now flat.new }
    ensures board { machine.new.board ≡ machine.old.board }
{
    if actor < cores {
        return core_turn(machine, flat, layout, actor, followed, counts);
    }
    device_turn(machine, flat, layout, actor, counts)
}

/// Makes turns of random actors until all cores have stopped, and says after which of them the machines
/// differ, if they do.
fn make_turns(
    machine: &mut Machine,
    flat: &mut Flat,
    layout: &Layout,
    cores: u32,
    picker: &mut Picker,
    followed: &mut Followed,
    counts: &mut Counts,
) -> Result<Option<Difference>, NoMemory>
    requires beside { AreBeside machine.old layout.now flat.old }
    requires cores { cores ≡ length machine.old.board.core }
    ensures beside { AreBeside machine.new layout.now flat.new }
    ensures board { machine.new.board ≡ machine.old.board }
{
    for i in 0..TURNS {
        if all_stopped(machine, cores) {
            return Ok(None);
        }
        let actor = picker.next(machine, cores);
        turn(machine, flat, layout, cores, actor, followed, counts)?;
        if !agree(machine, flat, cores) {
            return Ok(Some(Difference::Turn(i)));
        }
    }
    Ok(None)
}

/// How many messages were taken.
fn taken(entries: &[Entry]) -> u64 {
    let is_taken = |entry: &&Entry| {
        matches!(entry.request, Request::Read(_, _)) && entry.reply.took
    };
    entries.iter().filter(is_taken).count() as u64
}

/// How many lines were written back.
fn written_back(entries: &[Entry]) -> u64 {
    let is_back = |entry: &&Entry| matches!(entry.request, Request::WriteBack(_, _));
    entries.iter().filter(is_back).count() as u64
}

/// The first line that differs, of those that no core holds dirty.
fn compare_lines(
    memories: &[MemoryRow],
    bus: &Bus,
    flat: &Flat,
    followed: &Followed,
    counts: &mut Counts,
) -> Option<Difference>
    requires few { line_count memories.now < 2 ^ 32 }
    requires memories { flat.now.common.wiring.memories ≡ memories.now }
{
    for line in 0..LINES {
        let words = line_behind(bus, line);
        if followed.is_held_dirty(line) {
            add(&mut counts.dirty);
        } else if words != flat_line(memories, flat, line) {
            return Some(Difference::Line(line));
        } else if words.is_some() {
            add(&mut counts.lines);
        }
    }
    None
}

/// Compares the ends of both machines, with what the journal tells of UARTs.
fn compare_ends(
    alloc: Global,
    board: &Board,
    ran: &Ran,
    flat: &Flat,
    followed: &Followed,
    counts: &mut Counts,
) -> Result<Option<Difference>, NoAnswer>
    requires valid { IsValid board.now }
    requires memories { flat.now.common.wiring.memories ≡ board.now.memory }
{
    n2_parts::laws::memory_lines();
    let entries = ran.journal.entries();
    let back = written_back(entries).saturating_sub(followed.flushes);
    add_all(&mut counts.messages, taken(entries));
    add_all(&mut counts.evictions, back);
    add_all(&mut counts.bytes, followed.sent.len() as u64);
    let sent = sent_in(alloc, entries)?;
    if sent.as_slice() != followed.sent.as_slice() {
        return Ok(Some(Difference::Bytes));
    }
    let memories = board.memory.as_slice();
    Ok(compare_lines(memories, &ran.bus, flat, followed, counts))
}

/// Makes the turns of a run on the flat machine of a board and on a caching machine, and compares their ends.
fn run_of_flat(
    alloc: Global,
    board: &Board,
    images: &[Image],
    layout: &Layout,
    flat: &mut Flat,
    picker: &mut Picker,
    counts: &mut Counts,
) -> Result<Option<Difference>, NoAnswer>
    requires valid { IsValid board.now }
    requires images { length images.now ≡ length board.now.core }
    requires sized { AllByRecursion IsSized images.now }
    requires layout { layout.now ≡ address_map board.now images.now }
    requires flat_board { flat.old.board ≡ board.now }
    requires whole { IsWhole layout.now flat.old }
{
    n2_parts::laws::valid_boards();
    let cores = board.core.len() as u32;
    let mut followed = Followed::open(alloc, board.core.as_slice())?;
    let mut machine = machine_of(alloc, board, images)?;
    let found = make_turns(
        &mut machine,
        flat,
        layout,
        cores,
        picker,
        &mut followed,
        counts,
    )?;
    if found.is_some() {
        return Ok(found);
    }
    add(&mut counts.runs);
    count_stops(&machine, cores, counts);
    let ran = machine.finish();
    compare_ends(alloc, board, &ran, flat, &followed, counts)
}

/// A run of the machines of a board by its layout.
fn run_by_layout(
    alloc: Global,
    board: &Board,
    images: &[Image],
    layout: &Layout,
    picker: &mut Picker,
    counts: &mut Counts,
) -> Result<Option<Difference>, NoAnswer>
    requires valid { IsValid board.now }
    requires images { length images.now ≡ length board.now.core }
    requires sized { AllByRecursion IsSized images.now }
    requires fits { open_fault board.now images.now ≡ None }
    requires layout { layout.now ≡ address_map board.now images.now }
{
    let mut flat = Flat::open(alloc, board, images, layout)?;
    run_of_flat(alloc, board, images, layout, &mut flat, picker, counts)
}

/// Makes a run of the machines of a board, and says where they differ first, if they do.
pub fn make_run(
    alloc: Global,
    board: &Board,
    images: &[Image],
    picker: &mut Picker,
    counts: &mut Counts,
) -> Result<Option<Difference>, NoAnswer>
    requires valid { IsValid board.now }
    requires sized { AllByRecursion IsSized images.now }
{
    if images.len() != board.core.len() {
        return Err(NoAnswer::NoCase);
    }
    let layout = layout_of(alloc, board, images)?;
    run_by_layout(alloc, board, images, &layout, picker, counts)
}
