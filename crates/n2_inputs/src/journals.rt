//! The files of journals.

ghost use Rattle.std.specs.Prelude.{◌≡◌, Some, IfOk};
ghost use Rattle.n2_outside.specs.Files.{Files};
ghost use Rattle.n2_journal.specs.Journals.{IsWithinLimits, HasOrder};
ghost use Rattle.n2_journal.specs.Reading.{read};
ghost use Rattle.n2_inputs.specs.Journals.{journal_in as journal_of_text, asked_journal};
ghost use Rattle.n2_inputs.specs.Calls.{Gives, LeavesFolder, ReadFails};

use crate::files::fetch_file;
use crate::refusal::{Failure, Role};
use n2_journal::{Journal, read_text};
use n2_outside::Folder;
use std::alloc::Global;

/// The journal of a text.
fn journal_in(alloc: Global, text: &[u8]) -> Result<Journal, Failure>
    ensures journal { Gives (λ journal. journal.content) (journal_of_text (read text.now)) result }
    ensures unread { ¬ ReadFails result }
    ensures within { IfOk result (λ journal. IsWithinLimits journal.content) }
    ensures order { IfOk result (λ journal. HasOrder journal.content) }
{
    Ok(read_text(alloc, text)?)
}

/// The journal in a file of a folder. A text that is no journal is refused with its first row that is
/// outside of the grammar, or as cut.
#[tactic(auto, unfolding(crate::specs::Journals::asked_journal))]
pub fn read_journal<F: Folder>(
    alloc: Global,
    folder: &mut F,
    name: &str,
) -> Result<Journal, Failure>
    ensures journal { (files : Files) → F.files folder.old ≡ Some files → Gives (λ journal. journal.content) (asked_journal files name.now) result }
    ensures within { IfOk result (λ journal. IsWithinLimits journal.content) }
    ensures order { IfOk result (λ journal. HasOrder journal.content) }
    ensures folder { LeavesFolder (F.files folder.old) (F.files folder.new) (F.faults folder.old) (F.faults folder.new) result }
{
    let bytes = fetch_file(alloc, folder, name, Role::Journal)?;
    journal_in(alloc, &bytes)
}
