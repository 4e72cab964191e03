//! Files by their names.

ghost use Rattle.std.specs.Prelude.{◌≡◌, ◌≤◌, Some, length, IfOk};
ghost use Rattle.n2_outside.specs.Files.{Files, file_at};
ghost use Rattle.n2_inputs.specs.Refusals.{limit_of};
ghost use Rattle.n2_inputs.specs.Files.{file_of};
ghost use Rattle.n2_inputs.specs.Calls.{Gives, LeavesFolder};

use crate::refusal::{Failure, NoAnswer, Refusal, Role};
use n2_outside::{FetchFault, Folder};
use std::alloc::Global;

/// The bytes of the file that a folder has by this name.
pub fn fetch_file<F: Folder>(
    alloc: Global,
    folder: &mut F,
    name: &str,
    role: Role,
) -> Result<Vec<u8>, Failure>
    ensures file { (files : Files) → F.files folder.old ≡ Some files → Gives (λ v. v.items) (file_of (file_at files name.now) role) result }
    ensures limit { IfOk result (λ v. length v.items ≤ limit_of role) }
    ensures folder { LeavesFolder (F.files folder.old) (F.files folder.new) (F.faults folder.old) (F.faults folder.new) result }
{
    match folder.fetch(alloc, name, role.limit()) {
        Ok(bytes) => Ok(bytes),
        Err(FetchFault::Absent) => Err(Failure::Refused(Refusal::Absent(role))),
        Err(FetchFault::TooLong) => Err(Failure::Refused(Refusal::TooLong(role))),
        Err(FetchFault::Failed) => Err(Failure::NoAnswer(NoAnswer::ReadFault)),
        Err(FetchFault::NoMemory) => Err(Failure::NoAnswer(NoAnswer::NoMemory)),
    }
}
