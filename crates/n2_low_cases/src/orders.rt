//! Cases of orders of turns.

ghost use Rattle.std.specs.Prelude.{◌≡◌, ◌≤◌, IfOk, length};

use n2_cases::{NoAnswer, bytes_in, number_in, put, put_shown};
use n2_order::{Chooser, ListFault, Order, read_list};
use std::alloc::{AllocError, Global};

/// A case of one of the kinds below.
pub fn answer(alloc: Global, kind: &str, rest: &str, out: &mut Vec<u8>) -> Result<(), NoAnswer> {
    match kind {
        "order" => order(rest, out),
        "list" => list(alloc, rest, out),
        _ => turns(alloc, rest, out),
    }
}

/// `order WORD`: the order that a word names, or `none`.
fn order(word: &str, out: &mut Vec<u8>) -> Result<(), NoAnswer> {
    match Order::read(word) {
        Some(order) => put_shown(out, "", &order),
        None => put(out, "none"),
    }
}

/// `list CORES TEXT`: the actors of a file, or the number of the first row that is no actor's.
fn list(alloc: Global, rest: &str, out: &mut Vec<u8>) -> Result<(), NoAnswer> {
    let (cores, text) = rest.split_once(' ').ok_or(NoAnswer::NoCase)?;
    let cores = core_count(cores)?;
    put_list(alloc, &bytes_in(alloc, text)?, cores, out)
}

fn put_list(alloc: Global, text: &[u8], cores: u32, out: &mut Vec<u8>) -> Result<(), NoAnswer>
    requires { cores ≤ 8 }
{
    match read_list(alloc, text, cores) {
        Ok(actors) => put_actors(&actors, out),
        Err(ListFault::Row(row)) => put_shown(out, "row ", &row),
        Err(ListFault::NoMemory) => Err(NoAnswer::NoMemory),
    }
}

/// `turns ORDER CORES TEXT | STATES COUNT | ..`: the actors that have so many turns of an order, of
/// which a list is the file TEXT. STATES has a letter for each core and then the device actor: `r`
/// runs, `o` is over.
fn turns(alloc: Global, rest: &str, out: &mut Vec<u8>) -> Result<(), NoAnswer> {
    let (head, steps) = rest.split_once('|').ok_or(NoAnswer::NoCase)?;
    let mut goer = goer_in(alloc, head.trim())?;
    for step in steps.split('|') {
        put_step(alloc, &mut goer, step.trim(), out)?;
    }
    Ok(())
}

/// A chooser and how many actors it has.
#[derive(Drop)]
struct Goer {
    chooser: Chooser,
    actors: usize,
    ghost same: { actors ≡ chooser.actors },
}

/// The chooser of `ORDER CORES TEXT` at its start.
fn goer_in(alloc: Global, head: &str) -> Result<Goer, NoAnswer> {
    let (order, rest) = head.split_once(' ').ok_or(NoAnswer::NoCase)?;
    let (cores, text) = rest.split_once(' ').ok_or(NoAnswer::NoCase)?;
    let cores = core_count(cores)?;
    goer_of(alloc, order, &bytes_in(alloc, text)?, cores)
}

fn goer_of(alloc: Global, order: &str, text: &[u8], cores: u32) -> Result<Goer, NoAnswer>
    requires { cores ≤ 8 }
{
    let order = Order::read(order).ok_or(NoAnswer::NoCase)?;
    let Ok(list) = read_list(alloc, text, cores) else {
        return Err(NoAnswer::NoCase);
    };
    let actors = cores + 1;
    Ok(Goer {
        chooser: Chooser::open(&order, list, actors),
        actors: actors as usize,
    })
}

/// Appends the actors of a step, `STATES COUNT`.
fn put_step(alloc: Global, goer: &mut Goer, step: &str, out: &mut Vec<u8>) -> Result<(), NoAnswer> {
    let (states, count) = step.split_once(' ').ok_or(NoAnswer::NoCase)?;
    let count = number_in(2_000_000, count)?;
    let over = over_in(alloc, states)?;
    put_actors(&next_turns(alloc, goer, &over, count)?, out)?;
    put(out, ";")
}

fn over_in(alloc: Global, states: &str) -> Result<Vec<bool>, AllocError> {
    states.bytes().map(|state| state == b'o').collect(alloc)
}

fn core_count(text: &str) -> Result<u32, NoAnswer>
    ensures { IfOk result (λ cores. cores ≤ 8) }
{
    Ok(number_in(8, text)? as u32)
}

/// The actors of so many turns, or of fewer where all are over.
fn next_turns(
    alloc: Global,
    goer: &mut Goer,
    over: &[bool],
    count: u64,
) -> Result<Vec<u32>, NoAnswer> {
    let mut actors = Vec::new(alloc);
    for _ in 0..count {
        match next_turn(goer, over)? {
            Some(actor) => actors.push(actor).map_err(|_| NoAnswer::NoMemory)?,
            None => break,
        }
    }
    Ok(actors)
}

fn next_turn(goer: &mut Goer, over: &[bool]) -> Result<Option<u32>, NoAnswer> {
    if over.len() != goer.actors {
        return Err(NoAnswer::NoCase);
    }
    Ok(goer.chooser.next(over))
}

/// Appends how many actors there are and their numbers, with `*N` behind N that are equal.
fn put_actors(actors: &[u32], out: &mut Vec<u8>) -> Result<(), NoAnswer> {
    put_shown(out, "", &actors.len())?;
    put(out, ":")?;
    for run in actors.chunk_by(|actor, next| actor == next) {
        put_run(run, out)?;
    }
    Ok(())
}

fn put_run(run: &[u32], out: &mut Vec<u8>) -> Result<(), NoAnswer> {
    let Some(actor) = run.first() else {
        return Ok(());
    };
    put_shown(out, " ", actor)?;
    if run.len() > 1 {
        put_shown(out, "*", &run.len())?;
    }
    Ok(())
}
