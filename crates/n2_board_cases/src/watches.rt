//! Cases of the watch of a core.

ghost use Rattle.std.specs.Prelude.{◌≡◌, ◌<◌, IfOk, length};
ghost use Rattle.n2_parts.specs.Valid.{IsValid};
ghost use Rattle.n2_board.specs.declared.guards.Guard.{Guard};
ghost use Rattle.n2_watch.specs.Table.{slot_of};
ghost use Rattle.n2_watch.specs.Watched.{IsGuardOf, IsMapOf};

use crate::bus::empty;
use crate::devices::count_in;
use crate::{halves, shared};
use n2_board::{Layout, OpenFault};
use n2_cases::{NoAnswer, put, put_shown, put_word, word_in, words_of};
use n2_elf::Image;
use n2_insn::DataOp;
use n2_parts::Board;
use n2_watch::{Access, Broken, Done, Watch};
use n2_word::line_of;
use std::alloc::Global;

/// Up to how many steps a case may have.
const STEPS: u32 = 4_000_000;

/// What a core is about to do, and what its watch notes of it where it passes.
#[derive(Drop)]
struct Step {
    access: Access,
    done: Option<Done>,
}

/// `watch TEXT | CORE | STEP | ..`: which steps of a core the watch refuses, on the board of a text, of one
/// or two cores with empty images whose entry is 0. No step strays. A step is `fetch ADDRESS`, `load ADDRESS`
/// or `store ADDRESS` through the cache, `initd`, `initda`, `flushd` or `flushda ADDRESS`, and past the
/// cache `read ADDRESS`, `read ADDRESS POINTER` where that takes the message with this Pointer, `write ADDRESS
/// VALUE` that takes effect, or `lost ADDRESS VALUE` that does not. What passes is noted.
///
/// The answer has each refusal with the number of its step, the rule, the address and the number of the
/// line that it names, and at last how many steps there were.
pub fn watch(alloc: Global, board: &Board, rest: &str, out: &mut Vec<u8>) -> Result<(), NoAnswer>
    requires { IsValid board.now }
{
    let (core, steps) = halves(rest, '|')?;
    let core = count_in(core.trim())?;
    if core as usize >= board.core.len() {
        return Err(NoAnswer::NoCase);
    }
    put_watched(alloc, board, core, &layout_of(alloc, board)?, steps, out)
}

fn put_watched(
    alloc: Global,
    board: &Board,
    core: u32,
    layout: &Layout,
    steps: &str,
    out: &mut Vec<u8>,
) -> Result<(), NoAnswer>
    requires valid { IsValid board.now }
    requires layout { IsMapOf board.now layout.now }
    requires core { core < length board.now.core }
{
    let mut watch = Watch::open(alloc, core, board, layout)?;
    put_steps(alloc, &mut watch, layout, steps, out)
}

fn layout_of(alloc: Global, board: &Board) -> Result<Layout, NoAnswer>
    requires { IsValid board.now }
    ensures { IfOk result (λ layout. IsMapOf board.now layout) }
{
    match board.core.len() {
        1 => laid_out(alloc, board, &[empty(alloc)?]),
        2 => laid_out(alloc, board, &[empty(alloc)?, empty(alloc)?]),
        _ => Err(NoAnswer::NoCase),
    }
}

fn laid_out(alloc: Global, board: &Board, images: &[Image]) -> Result<Layout, NoAnswer>
    requires valid { IsValid board.now }
    requires images { length images.now ≡ length board.now.core }
    ensures { IfOk result (λ layout. IsMapOf board.now layout) }
{
    match Layout::open(alloc, board, images) {
        Ok(layout) => Ok(layout),
        Err(OpenFault::NoMemory) => Err(NoAnswer::NoMemory),
        Err(_) => Err(NoAnswer::NoCase),
    }
}

fn put_steps(
    alloc: Global,
    watch: &mut Watch,
    layout: &Layout,
    steps: &str,
    out: &mut Vec<u8>,
) -> Result<(), NoAnswer>
    requires clock { watch.old.table.clock ≡ 0 }
    requires slots { (guard : Guard) → IsGuardOf watch.old.board guard → slot_of guard < length watch.old.table.got }
{
    shared(watch);
    let mut number = 0;
    'steps: for step in steps.split('|') {
        if number >= STEPS {
            return Err(NoAnswer::NoCase);
        }
        number += 1;
        let step = step_in(&words_of(alloc, step)?)?;
        match watch.judge(layout, &step.access) {
            Some(broken) => put_broken(number, &broken, out)?,
            None => match step.done {
                Some(done) => watch.note(layout, &done),
                None => {}
            },
        }
    }
    put_shown(out, " ", &number)?;
    put(out, " steps")
}

fn put_broken(number: u32, broken: &Broken, out: &mut Vec<u8>) -> Result<(), NoAnswer> {
    put_shown(out, " ", &number)?;
    put_shown(out, " ", &broken.kind)?;
    put_word(out, " ", broken.address)?;
    put_word(out, " ", broken.line)?;
    put(out, ";")
}

fn step_in(words: &[&str]) -> Result<Step, NoAnswer> {
    match words {
        [kind, address] => step_at(kind, word_in(address)?),
        [kind, address, value] => step_with(kind, word_in(address)?, word_in(value)?),
        _ => Err(NoAnswer::NoCase),
    }
}

fn step_at(kind: &str, address: u32) -> Result<Step, NoAnswer> {
    match kind {
        "fetch" => Ok(fetched(address)),
        "load" => Ok(cached(address, false)),
        "store" => Ok(cached(address, true)),
        "read" => Ok(received(address, false, 0)),
        _ => Ok(cleaned(op_in(kind)?, address)),
    }
}

fn step_with(kind: &str, address: u32, value: u32) -> Result<Step, NoAnswer> {
    match kind {
        "read" => Ok(received(address, true, value)),
        "write" => Ok(wrote(address, value, true)),
        "lost" => Ok(wrote(address, value, false)),
        _ => Err(NoAnswer::NoCase),
    }
}

fn fetched(address: u32) -> Step {
    Step {
        access: Access::Fetch { address },
        done: None,
    }
}

fn op_in(text: &str) -> Result<DataOp, NoAnswer> {
    match text {
        "initd" => Ok(DataOp::Initd),
        "initda" => Ok(DataOp::Initda),
        "flushd" => Ok(DataOp::Flushd),
        "flushda" => Ok(DataOp::Flushda),
        _ => Err(NoAnswer::NoCase),
    }
}

fn cached(address: u32, store: bool) -> Step {
    let line = line_of(address);
    Step {
        access: Access::Cached { address, store },
        done: Some(Done::Touched { line, store }),
    }
}

fn cleaned(op: DataOp, address: u32) -> Step {
    Step {
        access: Access::Op { op, address },
        done: Some(Done::Cleaned { op, address }),
    }
}

fn received(address: u32, took: bool, pointer: u32) -> Step {
    Step {
        access: Access::Bypass {
            address,
            store: false,
            value: 0,
        },
        done: Some(Done::Received {
            address,
            took,
            pointer,
        }),
    }
}

fn wrote(address: u32, value: u32, took: bool) -> Step {
    Step {
        access: Access::Bypass {
            address,
            store: true,
            value,
        },
        done: Some(Done::Wrote {
            address,
            value,
            took,
        }),
    }
}
