//! `replay BOARD JOURNAL`: the run of a board that a journal tells.

ghost use Rattle.std.specs.Prelude.{◌≡◌, ◌<◌, [], Some, IfOk};
ghost use Rattle.n2_outside.specs.Files.{Files};
ghost use Rattle.n2_inputs.specs.Asked.{IsReady};
ghost use Rattle.n2_inputs.specs.Calls.{Gives, LeavesFolder, ReadFails};
ghost use Rattle.n2_top.specs.Commands.{Replay};
ghost use Rattle.n2_top.specs.Asked.{JournalRun};
ghost use Rattle.n2_top.specs.Answers.{answered, reply_to};

use crate::answers::Answer;
use crate::runs::{answer_report, run_told};
use n2_inputs::{Failure, Inputs, read_replay};
use n2_journal::Journal;
use n2_outside::Folder;
use std::alloc::Global;

/// The answer of the run that a journal tells. A journal that is not that of a finished run is refused
/// with its first row that differs.
fn answer(alloc: Global, inputs: &Inputs, journal: &Journal) -> Result<Answer, Failure>
    requires ready { IsReady inputs.now }
    ensures answer { Gives (λ a. a) (answered (JournalRun inputs.now journal.now.content)) result }
    ensures unread { ¬ ReadFails result }
    ensures journal { IfOk result (λ a. a.journal ≡ []) }
    ensures status { IfOk result (λ a. a.status < 3) }
{
    let ran = run_told(alloc, inputs, journal)?;
    Ok(answer_report(alloc, inputs, &ran)?)
}

/// The report of the run of a board in a file that the journal in another file tells.
pub fn answer_replay<F: Folder>(
    alloc: Global,
    board: &str,
    journal: &str,
    folder: &mut F,
) -> Result<Answer, Failure>
    ensures answer { (files : Files) → F.files folder.old ≡ Some files → Gives (λ a. a) (reply_to (Replay board.now journal.now) files) result }
    ensures folder { LeavesFolder (F.files folder.old) (F.files folder.new) (F.faults folder.old) (F.faults folder.new) result }
    ensures journal { IfOk result (λ a. a.journal ≡ []) }
    ensures status { IfOk result (λ a. a.status < 3) }
{
    let (inputs, journal) = read_replay(alloc, folder, board, journal)?;
    answer(alloc, &inputs, &journal)
}
