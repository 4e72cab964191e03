//! Judgements and notes of the watch of a core.

ghost use Rattle.std.specs.Prelude.{◌≡◌, ◌<◌, ◌≤◌, ◌+◌, ◌^◌, IfSome, length};
ghost use Rattle.n2_parts.specs.Valid.{IsValid};
ghost use Rattle.n2_board.specs.declared.guards.Guard.{Guard};
ghost use Rattle.n2_watch.specs.Table.{slot_of};
ghost use Rattle.n2_watch.specs.Watched.{IsGuardOf, IsMapOf};

use n2_board::{Board, Layout};
use n2_elf::Image;
use n2_insn::DataOp;
use n2_watch::{Access, Done, Judged, Watch};
use n2_word::Width;
use std::alloc::Global;

/// The first line of the core's own, and up to how many of them are touched.
const FIRST: u32 = 0x800;

const MOST: u32 = 100_000;

/// What is made of loads and stores of lines.
#[derive(Clone, Copy)]
pub enum Work {
    Judgements,
    Notes,
    /// A judgement and a note of each, as a core makes them of one that hits its cache.
    Both,
}

/// A core whose own are all lines of a memory of 4 MiB but the first 2,048.
fn board_text() -> &'static [u8] {
    b"memory = [{base = 0, size = 0x400000}]
core = [{cpuid = 0, image = 'a.bin'}]
region = [{name = 'own', base = 0x10000, size = 0x3f0000, class = 'private', core = 0}]
"
}

/// The layout of a board with images that fit.
fn layout_of(alloc: Global, board: &Board, images: &[Image]) -> Option<Layout>
    requires valid { IsValid board.now }
    requires images { length images.now ≡ length board.now.core }
    ensures { IfSome result (λ layout. IsMapOf board.now layout) }
{
    match Layout::open(alloc, board, images) {
        Ok(layout) => Some(layout),
        Err(_) => None,
    }
}

/// The line after a line, of so many, and the first after the last.
fn next_of(line: u32, lines: u32) -> u32
    requires lines { lines ≤ 100000 }
    requires line { line < lines }
    ensures { result < lines }
{
    if line + 1 < lines { line + 1 } else { 0 }
}

/// Notes of N loads and stores of so many lines, one line after another.
fn note_lines(watch: &mut Watch, layout: &Layout, lines: u32, n: u32)
    requires most { lines ≤ 100000 }
    requires some { 0 < lines }
    requires clock { watch.old.table.clock + n < 2 ^ 64 }
    requires slots { (guard : Guard) → IsGuardOf watch.old.board guard → slot_of guard < length watch.old.table.got }
    ensures clock { watch.new.table.clock ≤ watch.old.table.clock + n }
    ensures slots { (guard : Guard) → IsGuardOf watch.new.board guard → slot_of guard < length watch.new.table.got }
{
    let mut at = 0;
    'notes: for i in 0..n {
        let done = Done::Touched {
            line: FIRST + at,
            store: i % 2 == 0,
        };
        watch.note(layout, &done);
        at = next_of(at, lines);
    }
}

/// How many of N stores to so many lines, one line after another, are refused.
fn judge_lines(watch: &Watch, layout: &Layout, lines: u32, n: u32) -> u32
    requires most { lines ≤ 100000 }
    requires some { 0 < lines }
{
    let mut refused = 0u32;
    let mut at = 0;
    'judgements: for _ in 0..n {
        let access = Access::Cached {
            address: (FIRST + at) * 32,
            store: true,
        };
        if watch.judge(layout, &access).is_some() {
            refused = refused.wrapping_add(1);
        }
        at = next_of(at, lines);
    }
    refused
}

/// Judges N loads and stores of so many lines, one line after another, and notes each that passes: how many
/// are refused.
fn pass_lines(watch: &mut Watch, layout: &Layout, lines: u32, n: u32) -> u32
    requires most { lines ≤ 100000 }
    requires some { 0 < lines }
    requires clock { watch.old.table.clock + n < 2 ^ 64 }
{
    let mut refused = 0u32;
    let mut at = 0;
    'accesses: for i in 0..n {
        let line = FIRST + at;
        let store = i % 2 == 0;
        match watch.judge_cached(layout, line * 32, Width::Word, store) {
            Judged::Passed(place) => watch.note_touched_at(place, line, store),
            _ => refused = refused.wrapping_add(1),
        }
        at = next_of(at, lines);
    }
    refused
}

/// The line for which an `initd` of the first line is refused, or 0.
fn unflushed(watch: &Watch, layout: &Layout) -> u32 {
    let access = Access::Op {
        op: DataOp::Initd,
        address: FIRST * 32,
    };
    match watch.judge(layout, &access) {
        Some(broken) => broken.line,
        None => 0,
    }
}

/// What comes of N judgements or notes of so many lines by the watch of core 0 of a board that has it.
fn watched(
    alloc: Global,
    board: &Board,
    layout: &Layout,
    lines: u32,
    work: Work,
    n: u32,
) -> Option<u32>
    requires core { 0 < length board.now.core }
    requires map { IsMapOf board.now layout.now }
    requires most { lines ≤ 100000 }
    requires some { 0 < lines }
{
    let Ok(mut watch) = Watch::open(alloc, 0, board, layout) else {
        return None;
    };
    match work {
        Work::Judgements => {
            note_lines(&mut watch, layout, lines, lines);
            Some(judge_lines(&watch, layout, lines, n))
        }
        Work::Notes => {
            note_lines(&mut watch, layout, lines, n);
            Some(unflushed(&watch, layout))
        }
        Work::Both => Some(pass_lines(&mut watch, layout, lines, n)),
    }
}

/// How many of N judgements of stores to so many lines that were touched are refused, or of N loads and
/// stores; or for which line an `initd` is refused after N notes of them.
pub fn refused(alloc: Global, lines: u32, work: Work, n: u32) -> Option<u32> {
    if lines == 0 || lines > MOST {
        return None;
    }
    let Ok(board) = n2_boardtext::read(alloc, board_text()) else {
        return None;
    };
    let images = [Image::raw(alloc, &[1, 2, 3, 4], 0).ok()?];
    if board.core.len() != 1 {
        return None;
    }
    let layout = layout_of(alloc, &board, &images)?;
    watched(alloc, &board, &layout, lines, work, n)
}
