//! `flat BOARD JOURNAL`: the flat machine along the run of a board that a journal tells; and what a flat
//! machine answers.

ghost use Rattle.std.specs.Prelude.{◌≡◌, ◌<◌, [], Some, IfOk, OnOk, length, map};
ghost use Rattle.n2_outside.specs.Files.{Files};
ghost use Rattle.n2_front.specs.Front.{Front};
ghost use Rattle.n2_runs.specs.Machine.{start, acts};
ghost use Rattle.n2_runs.specs.Recorded.{actors_of, HasCounts};
ghost use Rattle.n2_runs.specs.FlatRun.{flat_start, flat as flat_after};
ghost use Rattle.n2_flat.specs.State.{IsWhole, machine_of};
ghost use Rattle.n2_report.specs.OfFlat.{IsOf};
ghost use Rattle.n2_inputs.specs.Asked.{IsReady};
ghost use Rattle.n2_inputs.specs.Calls.{Gives, LeavesFolder, ReadFails};
ghost use Rattle.n2_top.specs.Machines.{without_caches};
ghost use Rattle.n2_top.specs.Commands.{Flat as FlatOf};
ghost use Rattle.n2_top.specs.Asked.{FlatRun};
ghost use Rattle.n2_top.specs.Answers.{answered, reply_to};
ghost use Rattle.n2_top.specs.Flat.{flat_answer};

use crate::answers::Answer;
use crate::runs::{open, run_told};
use n2_board::{Board, Stop};
use n2_driver::run_beside;
use n2_flat::Flat;
use n2_inputs::{Failure, Inputs, read_replay};
use n2_journal::Journal;
use n2_outside::Folder;
use n2_report::{flat_report, status};
use n2_text::Items;
use n2_word::NoMemory;
use std::alloc::Global;

/// Why each core of a flat machine stopped.
fn stops(alloc: Global, board: &Board, flat: &Flat) -> Result<Vec<Option<Stop>>, NoMemory>
    requires { IsOf board.now flat.now }
    ensures { IfOk result (λ stops. stops.items ≡ map (λ (f : Front). f.stop) (machine_of flat.now).cores) }
{
    n2_parts::laws::valid_boards();
    let mut stops = Vec::new(alloc);
    for k in 0..board.core.len() {
        stops.push(flat.stop(k as u32))?;
    }
    Ok(stops)
}

/// The answer of a flat machine.
pub fn answer_of(alloc: Global, board: &Board, flat: &Flat) -> Result<Answer, NoMemory>
    requires { IsOf board.now flat.now }
    ensures answer { IfOk result (λ a. a ≡ flat_answer board.now (machine_of flat.now)) }
    ensures status { IfOk result (λ a. a.status < 3) }
{
    let stops = stops(alloc, board, flat)?;
    let report = flat_report(alloc, board, flat)?;
    Ok(Answer {
        status: status(&stops),
        journal: Items::new(alloc),
        report: Items::from_vec(report),
    })
}

/// The flat machine of a board with its images before its first act.
fn open_flat(alloc: Global, inputs: &Inputs) -> Result<Flat, NoMemory>
    requires { IsReady inputs.now }
    ensures board { IfOk result (λ flat. flat.board ≡ inputs.now.board) }
    ensures start { IfOk result (λ flat. machine_of flat ≡ flat_start inputs.now.board inputs.now.images) }
    ensures whole { IfOk result (λ flat. IsWhole inputs.now.layout flat) }
{
    Flat::open(
        alloc,
        &inputs.board,
        inputs.images.as_slice(),
        &inputs.layout,
    )
}

/// Has a flat machine make the acts of the run that a journal tells: each act as the run, on a machine of
/// its own, makes the turn.
fn run_flat(
    alloc: Global,
    inputs: &Inputs,
    journal: &Journal,
    flat: &mut Flat,
) -> Result<(), NoMemory>
    requires ready { IsReady inputs.now }
    requires counts { HasCounts (length inputs.now.board.core) journal.now.content }
    requires board { flat.old.board ≡ inputs.now.board }
    requires whole { IsWhole inputs.now.layout flat.old }
    ensures flat { OnOk result (machine_of flat.new ≡ flat_after inputs.now.board inputs.now.layout (machine_of flat.old) (acts inputs.now.board inputs.now.layout (start inputs.now.board inputs.now.images) (actors_of journal.now.content))) }
    ensures whole { IsWhole inputs.now.layout flat.new }
    ensures board { flat.new.board ≡ flat.old.board }
{
    let mut machine = open(alloc, inputs)?;
    run_beside(alloc, &mut machine, flat, &inputs.layout, journal)
}

/// The flat machine after the acts of the run that a journal tells.
fn flat_of(alloc: Global, inputs: &Inputs, journal: &Journal) -> Result<Flat, NoMemory>
    requires ready { IsReady inputs.now }
    requires counts { HasCounts (length inputs.now.board.core) journal.now.content }
    ensures flat { IfOk result (λ flat. machine_of flat ≡ without_caches inputs.now (actors_of journal.now.content)) }
    ensures whole { IfOk result (λ flat. IsOf inputs.now.board flat) }
{
    let mut flat = open_flat(alloc, inputs)?;
    run_flat(alloc, inputs, journal, &mut flat)?;
    Ok(flat)
}

/// The answer of the flat machine along the run that a journal tells. A journal that is not that of a
/// finished run is refused with its first row that differs.
fn answer(alloc: Global, inputs: &Inputs, journal: &Journal) -> Result<Answer, Failure>
    requires ready { IsReady inputs.now }
    ensures answer { Gives (λ a. a) (answered (FlatRun inputs.now journal.now.content)) result }
    ensures unread { ¬ ReadFails result }
    ensures journal { IfOk result (λ a. a.journal ≡ []) }
    ensures status { IfOk result (λ a. a.status < 3) }
{
    run_told(alloc, inputs, journal)?;
    let flat = flat_of(alloc, inputs, journal)?;
    Ok(answer_of(alloc, &inputs.board, &flat)?)
}

/// The flat report of the flat machine along the run of a board in a file that the journal in another
/// file tells.
pub fn answer_flat<F: Folder>(
    alloc: Global,
    board: &str,
    journal: &str,
    folder: &mut F,
) -> Result<Answer, Failure>
    ensures answer { (files : Files) → F.files folder.old ≡ Some files → Gives (λ a. a) (reply_to (FlatOf board.now journal.now) files) result }
    ensures folder { LeavesFolder (F.files folder.old) (F.files folder.new) (F.faults folder.old) (F.faults folder.new) result }
    ensures journal { IfOk result (λ a. a.journal ≡ []) }
    ensures status { IfOk result (λ a. a.status < 3) }
{
    let (inputs, journal) = read_replay(alloc, folder, board, journal)?;
    answer(alloc, &inputs, &journal)
}
