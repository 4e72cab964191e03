//! What the tool answers to its words: a status and the whole texts.

ghost use Rattle.std.specs.Prelude.{◌≡◌, ◌≤◌, ◌<◌, [], map, string_bytes, IfOk, IsErrOf, Err, IsTrue, false};
ghost use Rattle.n2_outside.specs.Faults.{Rose};
ghost use Rattle.n2_top.specs.Commands.{command_by, command_of, HasTurnsIn, reads_files, writes_journal};
ghost use Rattle.n2_top.specs.Answers.{ForAnswer, OverFiles, reply_to, settled, is_final};
ghost use Rattle.n2_top.specs.Written.{IsStepped};
ghost use Rattle.n2_inputs.specs.Calls.{Gives, LeavesFolder};

use crate::bench::answer_bench;
use crate::command::{Command, command_in};
use crate::flat::answer_flat;
use crate::images::{answer_listing, answer_source};
use crate::plain::answer_plain;
use crate::replay::answer_replay;
use crate::step::answer_step;
use n2_inputs::{Failure, NoAnswer, Refusal, put_row};
use n2_outside::Folder;
use n2_text::Items;
use n2_word::NoMemory;
use std::alloc::Global;

/// A status, the text that the journal grows by, and the text that is written to `out`.
#[derive(Debug, Drop)]
pub struct Answer {
    pub status: u8,
    pub journal: Items<u8>,
    pub report: Items<u8>,
}

/// The answer to a command, or the first refusal.
fn answer_command<F: Folder>(
    alloc: Global,
    command: &Command<'_>,
    folder: &mut F,
) -> Result<Answer, Failure>
    requires turns { HasTurnsIn command.now }
    ensures answer { OverFiles (F.files folder.old) (command_by command.now) (λ files. Gives (λ a. a) (reply_to (command_by command.now) files) result) }
    ensures stepped { IfOk result (λ a. IsStepped (F.files folder.old) (command_by command.now) a) }
    ensures unread { reads_files (command_by command.now) ≡ false → folder.new ≡ folder.old }
    ensures folder { LeavesFolder (F.files folder.old) (F.files folder.new) (F.faults folder.old) (F.faults folder.new) result }
    ensures journal { IfOk result (λ a. writes_journal (command_by command.now) ≡ false → a.journal ≡ []) }
    ensures status { IfOk result (λ a. a.status < 3) }
{
    match *command {
        Command::Faulty => Err(Failure::Refused(Refusal::Usage)),
        Command::Plain { file, steps } => answer_plain(alloc, file, steps, folder),
        Command::Step { board, order } => answer_step(alloc, board, &order, folder),
        Command::Replay { board, journal } => answer_replay(alloc, board, journal, folder),
        Command::Flat { board, journal } => answer_flat(alloc, board, journal, folder),
        Command::Assemble { file, hal } => answer_source(alloc, file, hal, folder),
        Command::Disassemble { file } => answer_listing(alloc, file, folder),
        Command::Bench { sections } => answer_bench(alloc, sections),
    }
}

/// The answer to a refusal: its status, and its row.
pub(crate) fn refused(alloc: Global, refusal: &Refusal) -> Result<Answer, NoMemory>
    ensures { IfOk result (λ a. a ≡ settled (Err refusal.now)) }
{
    let mut row = Vec::new(alloc);
    put_row(&mut row, refusal)?;
    Ok(Answer {
        status: refusal.status(),
        journal: Items::new(alloc),
        report: Items::from_vec(row),
    })
}

/// The answer to some words, the row of a refusal included.
pub fn answer_words<F: Folder>(
    alloc: Global,
    words: &[String],
    folder: &mut F,
) -> Result<Answer, NoAnswer>
    ensures answer { IfOk result (λ a. ForAnswer (F.files folder.old) (map string_bytes words.now) (λ answer. a ≡ answer)) }
    ensures stepped { IfOk result (λ a. a.status < 3 → IsStepped (F.files folder.old) (command_of (map string_bytes words.now)) a) }
    ensures unread { reads_files (command_of (map string_bytes words.now)) ≡ false → folder.new ≡ folder.old }
    ensures files { F.files folder.new ≡ F.files folder.old }
    ensures later { F.faults folder.old ≤ F.faults folder.new }
    ensures fault { IsErrOf result NoAnswer.ReadFault → Rose (F.faults folder.old) (F.faults folder.new) }
    ensures kept { IfOk result (λ a. a.status < 3 → F.faults folder.new ≡ F.faults folder.old) }
    ensures journal { IfOk result (λ a. writes_journal (command_of (map string_bytes words.now)) ≡ false → a.journal ≡ []) }
    ensures refused { IfOk result (λ a. 3 ≤ a.status → a.journal ≡ []) }
    ensures status { IfOk result (λ a. IsTrue (is_final a.status)) }
{
    match answer_command(alloc, &command_in(words), folder) {
        Ok(answer) => Ok(answer),
        Err(Failure::Refused(refusal)) => Ok(refused(alloc, &refusal)?),
        Err(Failure::NoAnswer(cause)) => Err(cause),
    }
}
