//! Sources, and images that are listed.

ghost use Rattle.std.specs.Prelude.{◌≡◌, Some, IfOk};
ghost use Rattle.n2_outside.specs.Files.{Files};
ghost use Rattle.n2_elf.specs.Writing.{IsWritable};
ghost use Rattle.n2_asm.specs.Sources.{assembled};
ghost use Rattle.n2_inputs.specs.Sources as spec;
ghost use Rattle.n2_inputs.specs.Calls.{Gives, LeavesFolder, ReadFails};

use crate::boards::image_in;
use crate::files::fetch_file;
use crate::refusal::{Failure, NoAnswer, Refusal, Role};
use n2_asm::{AsmFault, assemble};
use n2_elf::Image;
use n2_hal::with_hal;
use n2_outside::Folder;
use n2_word::NoMemory;
use std::alloc::Global;

/// A source with the routines behind it, where they are asked for.
fn source_with(alloc: Global, hal: bool, source: Vec<u8>) -> Result<Vec<u8>, NoMemory>
    ensures { IfOk result (λ v. v.items ≡ spec.source_with hal source.items) }
{
    if hal {
        with_hal(alloc, &source)
    } else {
        Ok(source)
    }
}

/// The image of a source.
fn image_of_source(alloc: Global, source: &[u8]) -> Result<Image, Failure>
    ensures image { Gives (λ image. image) (spec.assembled_image (assembled source.now)) result }
    ensures unread { ¬ ReadFails result }
    ensures writable { IfOk result (λ image. IsWritable image) }
{
    match assemble(alloc, source) {
        Ok(object) => Ok(object.image),
        Err(AsmFault::Row { row, kind }) => Err(Failure::Refused(Refusal::SourceRow(row, kind))),
        Err(AsmFault::NoMemory) => Err(Failure::NoAnswer(NoAnswer::NoMemory)),
    }
}

/// The image of the source in a file of a folder, with the routines of the HAL behind it where they are
/// asked for. A source with a faulty row is refused with the first one.
#[tactic(auto, unfolding(crate::specs::Sources::asked_source))]
pub fn read_source<F: Folder>(
    alloc: Global,
    folder: &mut F,
    name: &str,
    hal: bool,
) -> Result<Image, Failure>
    ensures image { (files : Files) → F.files folder.old ≡ Some files → Gives (λ image. image) (spec.asked_source files name.now hal) result }
    ensures writable { IfOk result (λ image. IsWritable image) }
    ensures folder { LeavesFolder (F.files folder.old) (F.files folder.new) (F.faults folder.old) (F.faults folder.new) result }
{
    let bytes = fetch_file(alloc, folder, name, Role::Source)?;
    let source = source_with(alloc, hal, bytes)?;
    image_of_source(alloc, &source)
}

/// The image in a file of a folder, for a listing: an ELF file's, or else raw bytes at address 0.
#[tactic(auto, unfolding(crate::specs::Sources::asked_listing))]
pub fn read_listing<F: Folder>(alloc: Global, folder: &mut F, name: &str) -> Result<Image, Failure>
    ensures image { (files : Files) → F.files folder.old ≡ Some files → Gives (λ image. image) (spec.asked_listing files name.now) result }
    ensures folder { LeavesFolder (F.files folder.old) (F.files folder.new) (F.faults folder.old) (F.faults folder.new) result }
{
    let bytes = fetch_file(alloc, folder, name, Role::Image(0))?;
    image_in(alloc, &bytes, 0, 0)
}
