//! The top call of the tool: words, files and sinks in, a status out.
#![tactic(auto)]

mod answers;
mod bench;
mod command;
mod flat;
mod images;
pub mod laws;
mod plain;
mod replay;
mod run;
mod runs;
mod step;

ghost use Rattle.std.specs.Prelude.{◌≡◌, ◌≢◌, ◌<◌, ◌≤◌, ◌⊎◌, ℕ, List, [], Some, Ok, Err, map, string_bytes, IsTrue, false};
ghost use Rattle.n2_outside.specs.Faults.{Rose};
ghost use Rattle.n2_outside.specs.Bytes.{appended, PutsPrefix};
ghost use Rattle.n2_outside.specs.Files.{Files};
ghost use Rattle.n2_order.specs.Orders.{Asked as Order};
ghost use Rattle.n2_inputs.specs.Asked.{asked_run};
ghost use Rattle.n2_top.specs.Commands.{Step, command_of, reads_files, writes_journal};
ghost use Rattle.n2_top.specs.Answers.{ForAnswer, read_fault, is_final};
ghost use Rattle.n2_top.specs.Headline.{Headline};
ghost use Rattle.n2_top.specs.Written.{board_of};

use answers::{Answer, answer_words};
use n2_inputs::NoAnswer;
use n2_outside::{Folder, Sink, put_all};
pub use run::run_top;
use std::alloc::Global;

/// Writes an answer: the journal's text, and then the report. The status is 7 where a put failed.
fn put_answer<S: Sink, L: Sink>(answer: &Answer, out: &mut S, journal: &mut L) -> u8
    requires { answer.now.status ≢ 7 }
    ensures put { result ≢ 7 → (result ≡ answer.now.status) × (S.told out.new ≡ appended (S.told out.old) answer.now.report) × (L.told journal.new ≡ appended (L.told journal.old) answer.now.journal) }
    ensures kept { result ≢ 7 → (S.faults out.new ≡ S.faults out.old) × (L.faults journal.new ≡ L.faults journal.old) }
    ensures prefix { result ≡ 7 →
        (Rose (L.faults journal.old) (L.faults journal.new) × PutsPrefix (L.told journal.old) (L.told journal.new) answer.now.journal × (out.new ≡ out.old))
        ⊎ (Rose (S.faults out.old) (S.faults out.new) × PutsPrefix (S.told out.old) (S.told out.new) answer.now.report × (L.told journal.new ≡ appended (L.told journal.old) answer.now.journal)) }
    ensures later { (S.faults out.old ≤ S.faults out.new) × (L.faults journal.old ≤ L.faults journal.new) }
    ensures empty { answer.now.journal ≡ [] → journal.new ≡ journal.old }
{
    if put_all(journal, answer.journal.as_slice()).is_err() {
        return 7;
    }
    if put_all(out, answer.report.as_slice()).is_err() {
        return 7;
    }
    answer.status
}

/// Runs the command that the words are, and gives its status:
///
/// * 0: done, and every core broke, where cores ran; 1: done, and an access of a core was refused or strayed; 2: done,
///   and neither.
/// * 3: the words are none of the table.
/// * 4: the board file is absent, longer than 256 KiB, or no valid board's text.
/// * 5: an image is absent, longer than 16 MiB, no sound ELF file though it begins as one, or does
///   not fit the board: a segment or its entry is outside of the memory, or two images overlap.
/// * 6: a file could not be fetched. 7: a put failed. 8: no memory was left.
/// * 9: the journal is absent, longer than 256 MiB, has a row outside of the grammar, is cut, or is not that of a
///   finished run of the board, with the first row that differs.
/// * 10: a source is absent, longer than 1 MiB, or has a faulty row.
/// * 11: the order file is absent, longer than 4 MiB, or has a row that names no actor.
///
/// Over a folder that tells its files, or at a command that reads none, every status but 6, 7 and 8 is
/// that of the answer to the words; `journal` grows by the answer's journal, and then `out` by its
/// report. What `step` answers carries the sentence of `Headline`, of the board with its images and the run by
/// its order. With 6 `out` grows by the row `read fault`. With 7 a prefix of a text was put, and nothing
/// after it: where a put to `journal` failed, `out` is as it was. With 8 both are as they were. All
/// texts are made before the first byte is put. A command that reads no file leaves the folder as it
/// was, and one that is refused, or that makes no journal, leaves `journal` as it was.
pub fn tool_top<F: Folder, S: Sink, L: Sink>(
    alloc: Global,
    words: &[String],
    folder: &mut F,
    out: &mut S,
    journal: &mut L,
) -> u8
    ensures answered { ForAnswer (F.files folder.old) (map string_bytes words.now) (λ a. IsTrue (is_final result) →
        (result ≡ a.status) × (S.told out.new ≡ appended (S.told out.old) a.report) × (L.told journal.new ≡ appended (L.told journal.old) a.journal)) }
    ensures headline { (files : Files) (board : List ℕ) (order : Order) → F.files folder.old ≡ Some files → command_of (map string_bytes words.now) ≡ Step board order → result < 3 →
        Headline (board_of (asked_run files board order)) result (L.told journal.old) (L.told journal.new) (S.told out.old) (S.told out.new) }
    ensures complete { ForAnswer (F.files folder.old) (map string_bytes words.now) (λ a.
        ¬ Rose (F.faults folder.old) (F.faults folder.new) → ¬ Rose (S.faults out.old) (S.faults out.new) → ¬ Rose (L.faults journal.old) (L.faults journal.new)
        → (result ≡ 8) ⊎ (result ≡ a.status)) }
    ensures done { result < 3 → (F.faults folder.new ≡ F.faults folder.old) × (S.faults out.new ≡ S.faults out.old) × (L.faults journal.new ≡ L.faults journal.old) }

    ensures fetch_failed { result ≡ 6 → Rose (F.faults folder.old) (F.faults folder.new) × (S.told out.new ≡ appended (S.told out.old) read_fault) }
    ensures put_failed { result ≡ 7 → (Rose (L.faults journal.old) (L.faults journal.new) × (out.new ≡ out.old)) ⊎ Rose (S.faults out.old) (S.faults out.new) }
    ensures prefix { ForAnswer (F.files folder.old) (map string_bytes words.now) (λ a. result ≡ 7 →
        (Rose (L.faults journal.old) (L.faults journal.new) × PutsPrefix (L.told journal.old) (L.told journal.new) a.journal × (out.new ≡ out.old))
        ⊎ (Rose (S.faults out.old) (S.faults out.new) × PutsPrefix (S.told out.old) (S.told out.new) a.report × (L.told journal.new ≡ appended (L.told journal.old) a.journal))
        ⊎ (Rose (S.faults out.old) (S.faults out.new) × PutsPrefix (S.told out.old) (S.told out.new) read_fault × (journal.new ≡ journal.old) × Rose (F.faults folder.old) (F.faults folder.new))) }
    ensures no_memory { result ≡ 8 → out.new ≡ out.old }

    ensures refused { 3 ≤ result → result ≢ 7 → journal.new ≡ journal.old }
    ensures unjournaled { writes_journal (command_of (map string_bytes words.now)) ≡ false → journal.new ≡ journal.old }
    ensures unread { reads_files (command_of (map string_bytes words.now)) ≡ false → folder.new ≡ folder.old }
    ensures files { F.files folder.new ≡ F.files folder.old }
    ensures counts { (F.faults folder.old ≤ F.faults folder.new) × (S.faults out.old ≤ S.faults out.new) × (L.faults journal.old ≤ L.faults journal.new) }
{
    match answer_words(alloc, words, folder) {
        Ok(answer) => put_answer(&answer, out, journal),
        Err(NoAnswer::ReadFault) => match put_all(out, b"read fault\n") {
            Ok(()) => 6,
            Err(_) => 7,
        },
        Err(NoAnswer::NoMemory) => 8,
    }
}
