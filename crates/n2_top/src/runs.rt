//! The run of a board, by an order or by a journal, and what it answers.

ghost use Rattle.std.specs.Prelude.{◌≡◌, ◌<◌, ◌≤◌, ◌+◌, [], All, length, IfOk, None};
ghost use Rattle.n2_parts.specs.Valid.{IsValid};
ghost use Rattle.n2_order.specs.Orders.{asked, HasTurns};
ghost use Rattle.n2_order.specs.Choices as Choices;
ghost use Rattle.n2_runs.specs.Machine.{Machine as Caching, start};
ghost use Rattle.n2_runs.specs.Knows.{IsBookKept};
ghost use Rattle.n2_smp.specs.Standing.{StandsFor, RanStandsFor};
ghost use Rattle.n2_inputs.specs.Asked.{IsReady};
ghost use Rattle.n2_inputs.specs.Calls.{ReadFails};
ghost use Rattle.n2_top.specs.Runs.{EndsAs, Tells, end_by, run_answer, report_answer};

use crate::answers::Answer;
use n2_driver::{run_by, who_is_over};
use n2_inputs::{Failure, Inputs, Refusal};
use n2_journal::Journal;
use n2_order::{Chooser, Order};
use n2_report::{run_report, run_status};
use n2_smp::{Machine, Ran};
use n2_text::Items;
use n2_word::NoMemory;
use std::alloc::Global;

/// The machine of a board with its images before its first turn.
pub fn open(alloc: Global, inputs: &Inputs) -> Result<Machine, NoMemory>
    requires { IsReady inputs.now }
    ensures board { IfOk result (λ machine. machine.board ≡ inputs.now.board) }
    ensures map { IfOk result (λ machine. machine.map ≡ inputs.now.layout) }
    ensures stands { IfOk result (λ machine. StandsFor machine (start inputs.now.board inputs.now.images)) }
    ensures kept { IfOk result (λ machine. IsBookKept inputs.now.board inputs.now.layout (start inputs.now.board inputs.now.images)) }
{
    match Machine::open(alloc, &inputs.board, inputs.images.as_slice()) {
        Ok(machine) => Ok(machine),
        Err(_) => Err(NoMemory),
    }
}

/// A chooser of the actors of a board.
fn chooser(inputs: &Inputs, order: &Order<'_>, list: Vec<u32>) -> Chooser
    requires ready { IsReady inputs.now }
    requires turns { HasTurns (asked order.now) }
    requires actors { All (λ actor. actor ≤ length inputs.now.board.core) list.items }
    ensures actors { result.actors ≡ length inputs.now.board.core + 1 }
    ensures state { result.state ≡ Choices.start_of (asked order.now) list.items }
{
    n2_parts::laws::valid_boards();
    Chooser::open(order, list, inputs.board.core.len() as u32 + 1)
}

/// What is left of the run of a board by an order, at its end.
pub fn run_by_order(
    alloc: Global,
    inputs: &Inputs,
    order: &Order<'_>,
    list: Vec<u32>,
) -> Result<Ran, NoMemory>
    requires ready { IsReady inputs.now }
    requires turns { HasTurns (asked order.now) }
    requires actors { All (λ actor. actor ≤ length inputs.now.board.core) list.items }
    ensures ends { IfOk result (λ ran. EndsAs inputs.now ran (end_by inputs.now (asked order.now) list.items)) }
    ensures memories { IfOk result (λ ran. ran.bus.wiring.memories ≡ inputs.now.board.memory) }
{
    let mut chooser = chooser(inputs, order, list);
    let mut machine = open(alloc, inputs)?;
    let mut over = who_is_over(alloc, &inputs.board, &machine)?;
    run_by(&mut machine, &inputs.board, &mut chooser, &mut over);
    let ran = machine.finish();
    Ok(ran)
}

/// What is left of the run of a board that a journal tells, at its end. A journal that is not that of a
/// finished run is refused with its first row that differs.
pub fn run_told(alloc: Global, inputs: &Inputs, journal: &Journal) -> Result<Ran, Failure>
    requires ready { IsReady inputs.now }
    ensures told { Tells inputs.now journal.now.content result }
    ensures unread { ¬ ReadFails result }
    ensures memories { IfOk result (λ ran. ran.bus.wiring.memories ≡ inputs.now.board.memory) }
{
    let mut machine = open(alloc, inputs)?;
    match machine.replay(journal) {
        Ok(()) => {
            let ran = machine.finish();
            Ok(ran)
        }
        Err(wrong) => Err(Failure::Refused(Refusal::JournalWrong(wrong.row))),
    }
}

/// The answer of a run.
pub fn answer_run(alloc: Global, inputs: &Inputs, ran: &Ran) -> Result<Answer, NoMemory>
    requires valid { IsValid inputs.now.board }
    requires memories { ran.now.bus.wiring.memories ≡ inputs.now.board.memory }
    ensures answer { IfOk result (λ a. (m : Caching) → RanStandsFor inputs.now.board inputs.now.layout ran.now m → length m.cores ≡ length inputs.now.board.core → a ≡ run_answer inputs.now.board inputs.now.layout m) }
    ensures status { IfOk result (λ a. a.status < 3) }
{
    let journal = ran.journal.write_text(alloc)?;
    let report = run_report(alloc, &inputs.board, &inputs.layout, ran)?;
    let status = run_status(alloc, &inputs.board, &inputs.layout, ran)?;
    Ok(Answer {
        status,
        journal: Items::from_vec(journal),
        report: Items::from_vec(report),
    })
}

/// The answer of a run that leaves no journal.
pub fn answer_report(alloc: Global, inputs: &Inputs, ran: &Ran) -> Result<Answer, NoMemory>
    requires valid { IsValid inputs.now.board }
    requires memories { ran.now.bus.wiring.memories ≡ inputs.now.board.memory }
    ensures answer { IfOk result (λ a. (m : Caching) → RanStandsFor inputs.now.board inputs.now.layout ran.now m → length m.cores ≡ length inputs.now.board.core → a ≡ report_answer inputs.now.board inputs.now.layout m) }
    ensures journal { IfOk result (λ a. a.journal ≡ []) }
    ensures status { IfOk result (λ a. a.status < 3) }
{
    let report = run_report(alloc, &inputs.board, &inputs.layout, ran)?;
    let status = run_status(alloc, &inputs.board, &inputs.layout, ran)?;
    Ok(Answer {
        status,
        journal: Items::new(alloc),
        report: Items::from_vec(report),
    })
}
