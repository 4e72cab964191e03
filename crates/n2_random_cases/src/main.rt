//! The program `n2_random_cases`: runs of random boards with random programs by random orders, in which the
//! caching machine and the flat machine go side by side and are compared after each turn. `n2_cases`
//! says how rows are written.
#![tactic(auto)]

mod boards;
mod counts;
mod dirty;
mod followed;
mod insns;
mod machines;
mod programs;
mod runs;
mod sent;
mod shapes;
mod words;

ghost use Rattle.std.specs.Prelude.{IfOk};
ghost use Rattle.std.specs.List.{AllByRecursion};
ghost use Rattle.n2_elf.specs.Reading.{IsSized};
ghost use Rattle.n2_parts.specs.Valid.{IsValid};

use boards::board;
use counts::Counts;
use n2_board::{Board, valid};
use n2_cases::{Cases, NoAnswer, answer_rows, number_in, put, put_shown, words_of};
use n2_elf::{ElfFault, Image};
use n2_text::Items;
use programs::program;
use runs::{Difference, Picker, make_run};
use shapes::{Shape, program_at};
use std::alloc::Global;
use std::io;
use words::Words;

/// A valid board of a shape.
fn valid_board(alloc: Global, words: &mut Words, shape: &Shape) -> Result<Board, NoAnswer>
    ensures { IfOk result IsValid }
{
    let board = board(alloc, words, shape)?;
    match valid(&board) {
        Ok(()) => Ok(board),
        Err(_) => Err(NoAnswer::NoCase),
    }
}

/// The image of the program of a core.
fn image(alloc: Global, words: &mut Words, shape: &Shape, core: u32) -> Result<Image, NoAnswer>
    ensures { IfOk result IsSized }
{
    let bytes = program(alloc, words, shape, core)?;
    if bytes.len() > 0x800 {
        return Err(NoAnswer::NoCase);
    }
    match Image::raw(alloc, &bytes, program_at(core)) {
        Ok(image) => Ok(image),
        Err(ElfFault::NoMemory) => Err(NoAnswer::NoMemory),
        Err(_) => Err(NoAnswer::NoCase),
    }
}

/// The images of the programs of all cores.
fn images(alloc: Global, words: &mut Words, shape: &Shape) -> Result<Items<Image>, NoAnswer>
    ensures { IfOk result (λ images. AllByRecursion IsSized images) }
{
    let mut images = Items::new(alloc);
    for k in 0..shape.cores {
        let image = image(alloc, words, shape, k)?;
        images.push(image)?;
    }
    Ok(images)
}

/// Makes the run of a seed, and says where the machines differ first, if they do.
fn run_of(alloc: Global, seed: u64, counts: &mut Counts) -> Result<Option<Difference>, NoAnswer> {
    let mut words = Words::of_seed(seed);
    let shape = Shape::random(&mut words);
    let board = valid_board(alloc, &mut words, &shape)?;
    let images = images(alloc, &mut words, &shape)?;
    let mut picker = Picker::new(words);
    make_run(alloc, &board, images.as_slice(), &mut picker, counts)
}

fn put_difference(out: &mut Vec<u8>, seed: u64, found: &Difference) -> Result<(), NoAnswer> {
    put_shown(out, "differs in seed ", &seed)?;
    put_shown(out, " ", found)
}

/// The runs of so many seeds from one on: what happened in them, or the first that differs.
fn put_runs(alloc: Global, seed: u64, count: u64, out: &mut Vec<u8>) -> Result<(), NoAnswer> {
    let mut counts = Counts::default();
    for i in 0..count {
        let seed = seed.wrapping_add(i);
        if let Some(found) = run_of(alloc, seed, &mut counts)? {
            return put_difference(out, seed, &found);
        }
    }
    counts.put(out)
}

struct RandomCases;

impl Cases for RandomCases {
    /// `runs SEED COUNT`: the runs of so many seeds.
    fn answer(&self, alloc: Global, case: &str, out: &mut Vec<u8>) -> Result<(), NoAnswer> {
        let words = words_of(alloc, case)?;
        let ["runs", seed, count] = words.as_slice() else {
            return Err(NoAnswer::NoCase);
        };
        let seed = number_in(1_000_000_000_000, seed)?;
        put_runs(alloc, seed, number_in(1_000_000_000, count)?, out)
    }
}

fn main(rt: HostRuntime) -> io::Result<()> {
    answer_rows(&rt, &RandomCases)
}
