//! The program `n2_tool`: the tool's top call over the current folder and standard output.
#![tactic(auto)]

ghost use Rattle.std.specs.Prelude.{◌≡◌, ◌⊎◌, map, string_bytes, IsTrue};
ghost use Rattle.std.specs.Process.{exit_status};
ghost use Rattle.n2_outside.specs.Faults.{Rose};
ghost use Rattle.n2_outside.specs.Bytes.{appended};
ghost use Rattle.n2_top.specs.Answers.{ForAnswer, is_final};

use n2_outside::{DirFolder, FileSink, Folder, Sink, StdSink};
use n2_top::tool_top;
use std::alloc::{AllocError, Global};
use std::env;
use std::process::ExitCode;
use std::rt::Env;

/// The file in the current folder that a run's journal goes to; it is made at the first put.
const JOURNAL: &str = "journal.txt";

/// The status where no memory was left for the words.
const NO_MEMORY: u8 = 8;

/// The words after the program's name; none where they cannot be had, as where one is not UTF-8,
/// which is a faulty command line.
fn command_words(rt: &(impl Env + AllocGlobal)) -> Result<Vec<String>, AllocError> {
    match env::args(rt) {
        Ok(args) => args.skip(1).collect(rt.alloc()),
        Err(_) => Ok(Vec::new(rt.alloc())),
    }
}

/// The program ends with this status.
fn ended_with(status: u8) -> ExitCode
    ensures { exit_status result ≡ status }
{
    ExitCode::from(status)
}

/// The program writes the answer to its words and ends with the status of the answer; any other status
/// is 8, or comes only where a count of faults rose.
fn run<F: Folder, S: Sink, L: Sink>(
    alloc: Global,
    words: &[String],
    folder: &mut F,
    out: &mut S,
    journal: &mut L,
) -> ExitCode
    ensures answered { ForAnswer (F.files folder.old) (map string_bytes words.now) (λ a. IsTrue (is_final (exit_status result)) →
        (exit_status result ≡ a.status) × (S.told out.new ≡ appended (S.told out.old) a.report) × (L.told journal.new ≡ appended (L.told journal.old) a.journal)) }
    ensures complete { ForAnswer (F.files folder.old) (map string_bytes words.now) (λ a.
        ¬ Rose (F.faults folder.old) (F.faults folder.new) → ¬ Rose (S.faults out.old) (S.faults out.new) → ¬ Rose (L.faults journal.old) (L.faults journal.new)
        → (exit_status result ≡ 8) ⊎ (exit_status result ≡ a.status)) }
    ensures fetch_failed { exit_status result ≡ 6 → Rose (F.faults folder.old) (F.faults folder.new) }
    ensures put_failed { exit_status result ≡ 7 → Rose (L.faults journal.old) (L.faults journal.new) ⊎ Rose (S.faults out.old) (S.faults out.new) }
{
    let status = tool_top(alloc, words, folder, out, journal);
    ended_with(status)
}

fn main(rt: HostRuntime) -> ExitCode {
    let Ok(words) = command_words(&rt) else {
        return ended_with(NO_MEMORY);
    };
    let mut folder = DirFolder::new(&rt);
    let mut out = StdSink::new(&rt);
    let mut journal = FileSink::new(&rt, JOURNAL);
    run(rt.alloc(), &words, &mut folder, &mut out, &mut journal)
}
