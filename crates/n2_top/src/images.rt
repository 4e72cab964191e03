//! `asm FILE`, `asmhal FILE` and `dis FILE`: images of sources as files, and images as text.

ghost use Rattle.std.specs.Prelude.{◌≡◌, ◌<◌, [], Some, Ok, IfOk};
ghost use Rattle.n2_outside.specs.Files.{Files};
ghost use Rattle.n2_elf.specs.Writing.{IsWritable};
ghost use Rattle.n2_top.specs.Commands.{Assemble, Disassemble};
ghost use Rattle.n2_top.specs.Asked.{File, Listing};
ghost use Rattle.n2_top.specs.Answers.{answered, done as done_with, reply_to};
ghost use Rattle.n2_inputs.specs.Calls.{Gives, LeavesFolder, ReadFails};

use crate::answers::Answer;
use n2_dis::put_listing;
use n2_elf::Image;
use n2_inputs::{Failure, NoAnswer, read_listing, read_source};
use n2_outside::Folder;
use n2_text::Items;
use std::alloc::Global;

/// The answer that writes a text and nothing else.
fn done(alloc: Global, report: Vec<u8>) -> Answer
    ensures { result ≡ done_with report.items }
{
    Answer {
        status: 0,
        journal: Items::new(alloc),
        report: Items::from_vec(report),
    }
}

/// The ELF file of an image.
fn file_answer(alloc: Global, image: &Image) -> Result<Answer, Failure>
    requires { IsWritable image.now }
    ensures answer { Gives (λ a. a) (answered (File image.now)) result }
    ensures unread { ¬ ReadFails result }
    ensures journal { IfOk result (λ a. a.journal ≡ []) }
    ensures status { IfOk result (λ a. a.status < 3) }
{
    match image.write(alloc) {
        Ok(file) => Ok(done(alloc, file)),
        Err(_) => Err(Failure::NoAnswer(NoAnswer::NoMemory)),
    }
}

/// The rows of an image's words.
fn listing_answer(alloc: Global, image: &Image) -> Result<Answer, Failure>
    ensures answer { Gives (λ a. a) (answered (Listing image.now)) result }
    ensures unread { ¬ ReadFails result }
    ensures journal { IfOk result (λ a. a.journal ≡ []) }
    ensures status { IfOk result (λ a. a.status < 3) }
{
    let mut rows = Vec::new(alloc);
    put_listing(&mut rows, image.segments.as_slice())?;
    Ok(done(alloc, rows))
}

/// The ELF file of the source in a file of the folder, with the routines of the HAL behind it where they
/// are asked for.
pub fn answer_source<F: Folder>(
    alloc: Global,
    file: &str,
    hal: bool,
    folder: &mut F,
) -> Result<Answer, Failure>
    ensures answer { (files : Files) → F.files folder.old ≡ Some files → Gives (λ a. a) (reply_to (Assemble file.now hal) files) result }
    ensures folder { LeavesFolder (F.files folder.old) (F.files folder.new) (F.faults folder.old) (F.faults folder.new) result }
    ensures journal { IfOk result (λ a. a.journal ≡ []) }
    ensures status { IfOk result (λ a. a.status < 3) }
{
    let image = read_source(alloc, folder, file, hal)?;
    file_answer(alloc, &image)
}

/// The words of the image in a file of the folder as text.
pub fn answer_listing<F: Folder>(
    alloc: Global,
    file: &str,
    folder: &mut F,
) -> Result<Answer, Failure>
    ensures answer { (files : Files) → F.files folder.old ≡ Some files → Gives (λ a. a) (reply_to (Disassemble file.now) files) result }
    ensures folder { LeavesFolder (F.files folder.old) (F.files folder.new) (F.faults folder.old) (F.faults folder.new) result }
    ensures journal { IfOk result (λ a. a.journal ≡ []) }
    ensures status { IfOk result (λ a. a.status < 3) }
{
    let image = read_listing(alloc, folder, file)?;
    listing_answer(alloc, &image)
}
