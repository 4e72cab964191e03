//! `bench N`: the run of a workload.

ghost use Rattle.std.specs.Prelude.{◌≡◌, ◌<◌, [], length, IfOk};
ghost use Rattle.std.specs.List.{AllByRecursion};
ghost use Rattle.n2_elf.specs.Reading.{IsSized};
ghost use Rattle.n2_outside.specs.Files.{Files};
ghost use Rattle.n2_parts.specs.Valid.{IsValid};
ghost use Rattle.n2_make.specs.Works.{work_of};
ghost use Rattle.n2_inputs.specs.Asked.{IsReady};
ghost use Rattle.n2_inputs.specs.Calls.{Gives, ReadFails};
ghost use Rattle.n2_top.specs.Commands.{Bench};
ghost use Rattle.n2_top.specs.Asked.{SeedRun};
ghost use Rattle.n2_top.specs.Answers.{reply_to};
ghost use Rattle.n2_top.specs.Bench.{assembled_work, asked_bench, bench_answer};

use crate::answers::Answer;
use crate::runs::{answer_report, run_by_order};
use n2_asm::AsmFault;
use n2_inputs::{Failure, Inputs, NoAnswer, Refusal, fit};
use n2_make::{Work, workload};
use n2_order::Order;
use n2_word::NoMemory;
use std::alloc::Global;

/// The workload of so many critical sections a core.
fn work(alloc: Global, sections: u32) -> Result<Work, Failure>
    ensures work { Gives (λ work. work) (assembled_work (work_of sections)) result }
    ensures unread { ¬ ReadFails result }
    ensures valid { IfOk result (λ work. IsValid work.board) }
    ensures cores { IfOk result (λ work. length work.images ≡ length work.board.core) }
    ensures sized { IfOk result (λ work. AllByRecursion IsSized work.images) }
{
    match workload(alloc, sections) {
        Ok(work) => Ok(work),
        Err(AsmFault::Row { row, kind }) => Err(Failure::Refused(Refusal::SourceRow(row, kind))),
        Err(AsmFault::NoMemory) => Err(Failure::NoAnswer(NoAnswer::NoMemory)),
    }
}

/// Its board with the images, and the seed of the order.
#[tactic(auto, unfolding(crate::specs::Bench::asked_bench))]
fn ask(alloc: Global, sections: u32) -> Result<(Inputs, u64), Failure>
    ensures asked { Gives (λ a. SeedRun a.0 a.1) (asked_bench sections) result }
    ensures unread { ¬ ReadFails result }
    ensures ready { IfOk result (λ a. IsReady a.0) }
{
    let Work {
        board,
        images,
        seed,
    } = work(alloc, sections)?;
    let inputs = fit(alloc, board, images)?;
    Ok((inputs, seed))
}

/// The answer of the run by the seed.
fn answer(alloc: Global, inputs: &Inputs, seed: u64) -> Result<Answer, NoMemory>
    requires ready { IsReady inputs.now }
    ensures answer { IfOk result (λ a. a ≡ bench_answer inputs.now seed) }
    ensures journal { IfOk result (λ a. a.journal ≡ []) }
    ensures status { IfOk result (λ a. a.status < 3) }
{
    let ran = run_by_order(alloc, inputs, &Order::Seed(seed), Vec::new(alloc))?;
    answer_report(alloc, inputs, &ran)
}

/// The report of the run of the workload of so many critical sections a core.
pub fn answer_bench(alloc: Global, sections: u32) -> Result<Answer, Failure>
    ensures answer { (files : Files) → Gives (λ a. a) (reply_to (Bench sections) files) result }
    ensures unread { ¬ ReadFails result }
    ensures journal { IfOk result (λ a. a.journal ≡ []) }
    ensures status { IfOk result (λ a. a.status < 3) }
{
    let (inputs, seed) = ask(alloc, sections)?;
    Ok(answer(alloc, &inputs, seed)?)
}
