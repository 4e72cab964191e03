//! The program `n2_mp`: the run of a board by threads, over the current folder and standard output.
#![tactic(auto)]

ghost use Rattle.std.specs.Prelude.{◌≡◌, ◌<◌, ◌⊎◌, map, string_bytes, IsTrue, Some};
ghost use Rattle.std.specs.Process.{exit_status};
ghost use Rattle.n2_outside.specs.Faults.{Rose};
ghost use Rattle.n2_outside.specs.Files.{Files};
ghost use Rattle.n2_top.specs.Answers.{is_final};
ghost use Rattle.n2_top.specs.Run.{board_named, asked_by, OverNamed, IsStatusFor};
ghost use Rattle.n2_top.specs.Headline.{Headline};

use n2_outside::{DirFolder, FileSink, Folder, Gate, OpenGate, Sink, StdSink};
use n2_top::run_top;
use std::alloc::{AllocError, Global};
use std::env;
use std::process::ExitCode;
use std::rt::Env;
use std::sync::Wait;
use std::thread::Threads;

/// The file in the current folder that a run's journal goes to; it is made at the first put.
const JOURNAL: &str = "journal.txt";

/// The status where no memory was left for the words.
const NO_MEMORY: u8 = 8;

/// The words after the program's name; none where they cannot be had, as where one is not UTF-8,
/// which is a faulty command line.
fn command_words(rt: &(impl Env + AllocGlobal)) -> Result<Vec<String>, AllocError> {
    match env::args(rt) {
        Ok(args) => args.skip(1).collect(rt.alloc()),
        Err(_) => Ok(Vec::new(rt.alloc())),
    }
}

/// The program ends with this status.
fn ended_with(status: u8) -> ExitCode
    ensures { exit_status result ≡ status }
{
    ExitCode::from(status)
}

/// The program runs the board that its words name, writes the journal and the report, or the row of the
/// refusal, and ends with the status of the run; any other status is 8, or comes only where a count of
/// faults rose.
fn run<R: Threads + Wait + Sync, F: Folder, S: Sink, L: Sink, G: Gate + Sync>(
    rt: &R,
    alloc: Global,
    words: &[String],
    folder: &mut F,
    out: &mut S,
    journal: &mut L,
    gate: &G,
) -> ExitCode
    ensures headline { (files : Files) → F.files folder.old ≡ Some files → exit_status result < 3 →
        Headline (asked_by (board_named (map string_bytes words.now)) files) (exit_status result) (L.told journal.old) (L.told journal.new) (S.told out.old) (S.told out.new) }
    ensures status { OverNamed (F.files folder.old) (board_named (map string_bytes words.now)) (λ files. IsTrue (is_final (exit_status result)) → IsStatusFor (asked_by (board_named (map string_bytes words.now)) files) (exit_status result)) }
    ensures complete { OverNamed (F.files folder.old) (board_named (map string_bytes words.now)) (λ files.
        ¬ Rose (F.faults folder.old) (F.faults folder.new) → ¬ Rose (S.faults out.old) (S.faults out.new) → ¬ Rose (L.faults journal.old) (L.faults journal.new)
        → (exit_status result ≡ 8) ⊎ IsStatusFor (asked_by (board_named (map string_bytes words.now)) files) (exit_status result)) }
    ensures fetch_failed { exit_status result ≡ 6 → Rose (F.faults folder.old) (F.faults folder.new) }
    ensures put_failed { exit_status result ≡ 7 → Rose (L.faults journal.old) (L.faults journal.new) ⊎ Rose (S.faults out.old) (S.faults out.new) }
{
    let status = run_top(rt, alloc, words, folder, out, journal, gate);
    ended_with(status)
}

fn main(rt: HostRuntime) -> ExitCode {
    let Ok(words) = command_words(&rt) else {
        return ended_with(NO_MEMORY);
    };
    let mut folder = DirFolder::new(&rt);
    let mut out = StdSink::new(&rt);
    let mut journal = FileSink::new(&rt, JOURNAL);
    let gate = OpenGate::new();
    run(
        &rt,
        rt.alloc(),
        &words,
        &mut folder,
        &mut out,
        &mut journal,
        &gate,
    )
}
