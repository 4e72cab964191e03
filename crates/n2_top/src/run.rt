//! `run BOARD`: a run of a board whose order threads draw.

ghost use Rattle.std.specs.Prelude.{◌≡◌, ◌≢◌, ◌<◌, ◌≤◌, ◌⊎◌, [], map, option_map, string_bytes, IfOk, IsErrOf, IsTrue, Some, None, Err};
ghost use Rattle.n2_outside.specs.Faults.{Rose};
ghost use Rattle.n2_outside.specs.Bytes.{appended, PutsPrefix};
ghost use Rattle.n2_outside.specs.Files.{Files};
ghost use Rattle.n2_threads.specs.Recorded.{IsRecorded};
ghost use Rattle.n2_inputs.specs.declared.refusal.Refusal.{Refusal as RefusalValue};
ghost use Rattle.n2_inputs.specs.Asked.{IsReady};
ghost use Rattle.n2_inputs.specs.Calls.{Gives, LeavesFolder};
ghost use Rattle.n2_inputs.specs.Refusals.{row_of};
ghost use Rattle.n2_top.specs.declared.answers.Answer.{Answer as AnswerValue};
ghost use Rattle.n2_top.specs.Answers.{read_fault, is_final};
ghost use Rattle.n2_top.specs.Run.{run_words, board_named as named, asked_by, OverNamed, IsRunOf, Answers, IsStatusFor};
ghost use Rattle.n2_top.specs.Headline.{Headline};

use crate::answers::{Answer, refused};
use crate::put_answer;
use crate::runs::answer_run;
use n2_inputs::{Failure, Inputs, NoAnswer, Refusal, read_inputs};
use n2_outside::{Folder, Gate, Sink, put_all};
use n2_smp::Ran;
use n2_threads::run_threads;
use n2_word::NoMemory;
use std::alloc::Global;
use std::sync::Wait;
use std::thread::Threads;

/// The board's file, where the first of two words is `run`.
#[tactic(auto, unfolding(crate::specs::Run::run_words))]
fn in_two<'a>(name: &str, board: &'a str) -> Option<&'a str>
    ensures { option_map (λ name. name.now) result ≡ run_words name.now board.now }
{
    match name {
        "run" => Some(board),
        _ => None,
    }
}

/// The board's file that some words name: `run BOARD`.
fn board_named(words: &[String]) -> Option<&str>
    ensures { option_map (λ name. name.now) result ≡ named (map string_bytes words.now) }
{
    match words {
        [name, board] => in_two(name.as_str(), board.as_str()),
        _ => None,
    }
}

/// The board that some words name and its images, or the first refusal.
fn read_asked<F: Folder>(alloc: Global, words: &[String], folder: &mut F) -> Result<Inputs, Failure>
    ensures asked { OverNamed (F.files folder.old) (named (map string_bytes words.now)) (λ files. Gives (λ inputs. inputs) (asked_by (named (map string_bytes words.now)) files) result) }
    ensures ready { IfOk result (λ inputs. IsReady inputs) }
    ensures unread { named (map string_bytes words.now) ≡ None → folder.new ≡ folder.old }
    ensures folder { LeavesFolder (F.files folder.old) (F.files folder.new) (F.faults folder.old) (F.faults folder.new) result }
{
    match board_named(words) {
        Some(board) => read_inputs(alloc, folder, board),
        None => Err(Failure::Refused(Refusal::RunUsage)),
    }
}

/// A finished run of a board, in the order that threads draw.
fn run_drawn<R: Threads + Wait + Sync, G: Gate + Sync>(
    rt: &R,
    alloc: Global,
    inputs: &Inputs,
    gate: &G,
) -> Result<Ran, NoMemory>
    requires { IsReady inputs.now }
    ensures { IfOk result (λ ran. IsRecorded inputs.now.board inputs.now.images ran) }
{
    match run_threads(rt, alloc, &inputs.board, inputs.images.as_slice(), gate) {
        Ok(ran) => Ok(ran),
        Err(_) => Err(NoMemory),
    }
}

/// The journal and the report of such a run.
#[tactic(auto, using(crate::proofs::Carried::run_of))]
fn answer_drawn<R: Threads + Wait + Sync, G: Gate + Sync>(
    rt: &R,
    alloc: Global,
    inputs: &Inputs,
    gate: &G,
) -> Result<Answer, NoMemory>
    requires { IsReady inputs.now }
    ensures answer { IfOk result (λ a. IsRunOf inputs.now a) }
    ensures status { IfOk result (λ a. a.status < 3) }
{
    let ran = run_drawn(rt, alloc, inputs, gate)?;
    let answer = answer_run(alloc, inputs, &ran)?;
    Ok(answer)
}

/// The answer to the words of a run, the row of a refusal included.
#[tactic(auto, using(crate::proofs::Drawn::run_as))]
fn answer_words<R: Threads + Wait + Sync, F: Folder, G: Gate + Sync>(
    rt: &R,
    alloc: Global,
    words: &[String],
    folder: &mut F,
    gate: &G,
) -> Result<Answer, NoAnswer>
    ensures answer { IfOk result (λ a. OverNamed (F.files folder.old) (named (map string_bytes words.now)) (λ files. Answers (asked_by (named (map string_bytes words.now)) files) a)) }
    ensures unread { named (map string_bytes words.now) ≡ None → folder.new ≡ folder.old }
    ensures files { F.files folder.new ≡ F.files folder.old }
    ensures later { F.faults folder.old ≤ F.faults folder.new }
    ensures fault { IsErrOf result NoAnswer.ReadFault → Rose (F.faults folder.old) (F.faults folder.new) }
    ensures kept { IfOk result (λ a. a.status < 3 → F.faults folder.new ≡ F.faults folder.old) }
    ensures refused { IfOk result (λ a. 3 ≤ a.status → a.journal ≡ []) }
    ensures status { IfOk result (λ a. IsTrue (is_final a.status)) }
{
    match read_asked(alloc, words, folder) {
        Ok(inputs) => Ok(answer_drawn(rt, alloc, &inputs, gate)?),
        Err(Failure::Refused(refusal)) => Ok(refused(alloc, &refusal)?),
        Err(Failure::NoAnswer(cause)) => Err(cause),
    }
}

/// Runs the board that the words name, `run BOARD`, each actor in a thread of its own that asks for the bus,
/// and gives the status of the run:
///
/// * 0: every core broke; 1: an access of a core was refused or strayed; 2: neither.
/// * 3: the words are others.
/// * 4: the board's file is absent, longer than 256 KiB, or no valid board's text.
/// * 5: an image is absent, longer than 16 MiB, no sound ELF file though it begins as one, or does not fit
///   the board.
/// * 6: a file could not be fetched. 7: a put failed. 8: no memory was left.
///
/// Which order the threads draw is not said, and neither is that the call returns: it may wait. `headline` is
/// what holds of each run that it answers. `status` says which other status comes where, and `complete` that
/// one of them comes where no count of faults rose, or 8. What is written with each status is as `tool_top` has
/// it.
#[tactic(auto, using(crate::proofs::Drawn::headline_put, crate::proofs::Drawn::status_put, crate::proofs::Drawn::complete_put, crate::proofs::Drawn::row_put, crate::proofs::Drawn::prefix_put))]
pub fn run_top<R: Threads + Wait + Sync, F: Folder, S: Sink, L: Sink, G: Gate + Sync>(
    rt: &R,
    alloc: Global,
    words: &[String],
    folder: &mut F,
    out: &mut S,
    journal: &mut L,
    gate: &G,
) -> u8
    ensures headline { (files : Files) → F.files folder.old ≡ Some files → result < 3 →
        Headline (asked_by (named (map string_bytes words.now)) files) result (L.told journal.old) (L.told journal.new) (S.told out.old) (S.told out.new) }

    ensures status { OverNamed (F.files folder.old) (named (map string_bytes words.now)) (λ files. IsTrue (is_final result) → IsStatusFor (asked_by (named (map string_bytes words.now)) files) result) }
    ensures complete { OverNamed (F.files folder.old) (named (map string_bytes words.now)) (λ files.
        ¬ Rose (F.faults folder.old) (F.faults folder.new) → ¬ Rose (S.faults out.old) (S.faults out.new) → ¬ Rose (L.faults journal.old) (L.faults journal.new)
        → (result ≡ 8) ⊎ IsStatusFor (asked_by (named (map string_bytes words.now)) files) result) }
    ensures row { OverNamed (F.files folder.old) (named (map string_bytes words.now)) (λ files. (refusal : RefusalValue) → asked_by (named (map string_bytes words.now)) files ≡ Err refusal → IsTrue (is_final result) → S.told out.new ≡ appended (S.told out.old) (row_of refusal)) }
    ensures done { result < 3 → (F.faults folder.new ≡ F.faults folder.old) × (S.faults out.new ≡ S.faults out.old) × (L.faults journal.new ≡ L.faults journal.old) }

    ensures fetch_failed { result ≡ 6 → Rose (F.faults folder.old) (F.faults folder.new) × (S.told out.new ≡ appended (S.told out.old) read_fault) }
    ensures put_failed { result ≡ 7 → (Rose (L.faults journal.old) (L.faults journal.new) × (out.new ≡ out.old)) ⊎ Rose (S.faults out.old) (S.faults out.new) }
    ensures prefix { OverNamed (F.files folder.old) (named (map string_bytes words.now)) (λ files. result ≡ 7 →
        ((a : AnswerValue) × Answers (asked_by (named (map string_bytes words.now)) files) a
        × ((Rose (L.faults journal.old) (L.faults journal.new) × PutsPrefix (L.told journal.old) (L.told journal.new) a.journal × (out.new ≡ out.old))
        ⊎ (Rose (S.faults out.old) (S.faults out.new) × PutsPrefix (S.told out.old) (S.told out.new) a.report × (L.told journal.new ≡ appended (L.told journal.old) a.journal))))
        ⊎ (Rose (S.faults out.old) (S.faults out.new) × PutsPrefix (S.told out.old) (S.told out.new) read_fault × (journal.new ≡ journal.old) × Rose (F.faults folder.old) (F.faults folder.new))) }
    ensures no_memory { result ≡ 8 → out.new ≡ out.old }

    ensures refused { 3 ≤ result → result ≢ 7 → journal.new ≡ journal.old }
    ensures unread { named (map string_bytes words.now) ≡ None → folder.new ≡ folder.old }
    ensures files { F.files folder.new ≡ F.files folder.old }
    ensures counts { (F.faults folder.old ≤ F.faults folder.new) × (S.faults out.old ≤ S.faults out.new) × (L.faults journal.old ≤ L.faults journal.new) }
{
    match answer_words(rt, alloc, words, folder, gate) {
        Ok(answer) => put_answer(&answer, out, journal),
        Err(NoAnswer::ReadFault) => match put_all(out, b"read fault\n") {
            Ok(()) => 6,
            Err(_) => 7,
        },
        Err(NoAnswer::NoMemory) => 8,
    }
}
