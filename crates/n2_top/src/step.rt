//! `step BOARD ORDER`: a run of a board by an order.

ghost use Rattle.std.specs.Prelude.{◌≡◌, ◌<◌, ◌≤◌, All, Some, IfOk, length};
ghost use Rattle.n2_outside.specs.Files.{Files};
ghost use Rattle.n2_order.specs.Orders.{asked, HasTurns};
ghost use Rattle.n2_inputs.specs.Asked.{asked_run, IsReady};
ghost use Rattle.n2_inputs.specs.Calls.{Gives, LeavesFolder};
ghost use Rattle.n2_top.specs.Answers.{reply_to};
ghost use Rattle.n2_top.specs.Commands.{Step};
ghost use Rattle.n2_top.specs.Step.{step_answer};
ghost use Rattle.n2_top.specs.Run.{IsRunOf, Answers};
ghost use Rattle.n2_top.specs.Written.{board_of};

use crate::answers::Answer;
use crate::runs::{answer_run, run_by_order};
use n2_inputs::{Failure, Inputs, read_run};
use n2_order::Order;
use n2_outside::Folder;
use n2_word::NoMemory;
use std::alloc::Global;

/// The answer of the run by an order.
fn answer(
    alloc: Global,
    inputs: &Inputs,
    order: &Order<'_>,
    list: Vec<u32>,
) -> Result<Answer, NoMemory>
    requires ready { IsReady inputs.now }
    requires turns { HasTurns (asked order.now) }
    requires actors { All (λ actor. actor ≤ length inputs.now.board.core) list.items }
    ensures answer { IfOk result (λ a. a ≡ step_answer inputs.now (asked order.now) list.items) }
    ensures run { IfOk result (λ a. IsRunOf inputs.now a) }
    ensures status { IfOk result (λ a. a.status < 3) }
{
    let ran = run_by_order(alloc, inputs, order, list)?;
    answer_run(alloc, inputs, &ran)
}

/// The journal and the report of the run of a board in a file by an order.
pub fn answer_step<F: Folder>(
    alloc: Global,
    board: &str,
    order: &Order<'_>,
    folder: &mut F,
) -> Result<Answer, Failure>
    requires { HasTurns (asked order.now) }
    ensures answer { (files : Files) → F.files folder.old ≡ Some files → Gives (λ a. a) (reply_to (Step board.now (asked order.now)) files) result }
    ensures run { IfOk result (λ a. (files : Files) → F.files folder.old ≡ Some files → Answers (board_of (asked_run files board.now (asked order.now))) a) }
    ensures folder { LeavesFolder (F.files folder.old) (F.files folder.new) (F.faults folder.old) (F.faults folder.new) result }
    ensures status { IfOk result (λ a. a.status < 3) }
{
    let (inputs, list) = read_run(alloc, folder, board, order)?;
    Ok(answer(alloc, &inputs, order, list)?)
}
