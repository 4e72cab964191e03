//! Boards and the images of their cores.

ghost use Rattle.std.specs.Prelude.{◌≡◌, ◌≢◌, ◌<◌, ◌≤◌, ◌^◌, Some, Ok, Err, length, IfOk, IfErr};
ghost use Rattle.std.specs.List.{AllByRecursion};
ghost use Rattle.n2_outside.specs.Files.{Files, file_at};
ghost use Rattle.n2_elf.specs.Reading.{IsSized};
ghost use Rattle.n2_parts.specs.Valid.{IsValid};
ghost use Rattle.n2_boardtext.specs.Reading.{text_board};
ghost use Rattle.n2_inputs.specs.Boards.{board_in as board_of_text, asked_board, image_of, image_in as image_of_core, asked_image, asked_images, asked_machine};
ghost use Rattle.n2_inputs.specs.Calls.{Gives, LeavesFolder, ReadFails};

use crate::files::fetch_file;
use crate::refusal::{Failure, NoAnswer, Refusal, Role};
use n2_boardtext::read;
use n2_elf::{ElfFault, Image};
use n2_outside::Folder;
use n2_parts::{Board, CoreRow};
use n2_text::Items;
use std::alloc::Global;

/// The board of a text.
fn board_in(alloc: Global, text: &[u8]) -> Result<Board, Failure>
    ensures board { Gives (λ board. board) (board_of_text (text_board text.now)) result }
    ensures unread { ¬ ReadFails result }
    ensures valid { IfOk result (λ board. IsValid board) }
{
    Ok(read(alloc, text)?)
}

/// The board in a file of a folder. A text that is no valid board's is refused with its first fault.
#[tactic(auto, unfolding(crate::specs::Boards::asked_board))]
pub fn read_board<F: Folder>(alloc: Global, folder: &mut F, name: &str) -> Result<Board, Failure>
    ensures board { (files : Files) → F.files folder.old ≡ Some files → Gives (λ board. board) (asked_board files name.now) result }
    ensures valid { IfOk result (λ board. IsValid board) }
    ensures folder { LeavesFolder (F.files folder.old) (F.files folder.new) (F.faults folder.old) (F.faults folder.new) result }
{
    let bytes = fetch_file(alloc, folder, name, Role::Board)?;
    board_in(alloc, &bytes)
}

/// The image of a file: an ELF file's, or else raw bytes at an address.
fn image_of_file(alloc: Global, bytes: &[u8], at: u32) -> Result<Image, ElfFault>
    requires { length bytes.now < 2 ^ 32 }
    ensures ok { IfOk result (λ image. image_of bytes.now at ≡ Ok image) }
    ensures sized { IfOk result (λ image. IsSized image) }
    ensures fault { IfErr result (λ fault. fault ≢ ElfFault.NoMemory → image_of bytes.now at ≡ Err fault) }
{
    if Image::is_elf(bytes) {
        Image::read(alloc, bytes)
    } else {
        Image::raw(alloc, bytes, at)
    }
}

/// The image in the file of a core: an ELF file's, or else raw bytes at an address.
pub fn image_in(alloc: Global, bytes: &[u8], core: u32, at: u32) -> Result<Image, Failure>
    requires { length bytes.now < 2 ^ 32 }
    ensures image { Gives (λ image. image) (image_of_core core (image_of bytes.now at)) result }
    ensures unread { ¬ ReadFails result }
    ensures sized { IfOk result (λ image. IsSized image) }
{
    match image_of_file(alloc, bytes, at) {
        Ok(image) => Ok(image),
        Err(ElfFault::NoMemory) => Err(Failure::NoAnswer(NoAnswer::NoMemory)),
        Err(fault) => Err(Failure::Refused(Refusal::Image(core, fault))),
    }
}

/// The image in the file that a core names.
#[tactic(auto, unfolding(crate::specs::Boards::asked_image))]
fn read_image<F: Folder>(
    alloc: Global,
    folder: &mut F,
    core: &CoreRow,
    k: u32,
) -> Result<Image, Failure>
    ensures image { (files : Files) → F.files folder.old ≡ Some files → Gives (λ image. image) (asked_image files k core.now) result }
    ensures sized { IfOk result (λ image. IsSized image) }
    ensures folder { LeavesFolder (F.files folder.old) (F.files folder.new) (F.faults folder.old) (F.faults folder.new) result }
{
    let bytes = fetch_file(alloc, folder, core.image.as_str(), Role::Image(k))?;
    image_in(alloc, &bytes, k, core.at)
}

/// The images of cores in their order. Each core's file is fetched and read before the next core's is
/// fetched, and the first refusal ends it.
pub fn read_images<F: Folder>(
    alloc: Global,
    folder: &mut F,
    cores: &[CoreRow],
) -> Result<Items<Image>, Failure>
    requires { length cores.now < 2 ^ 32 }
    ensures images { (files : Files) → F.files folder.old ≡ Some files → Gives (λ images. images) (asked_images files 0 cores.now) result }
    ensures each { IfOk result (λ images. length images ≡ length cores.now) }
    ensures sized { IfOk result (λ images. AllByRecursion IsSized images) }
    ensures folder { LeavesFolder (F.files folder.old) (F.files folder.new) (F.faults folder.old) (F.faults folder.new) result }
{
    let mut images = Items::new(alloc);
    for (k, core) in cores.iter().enumerate() {
        let image = read_image(alloc, folder, core, k as u32)?;
        images.push(image)?;
    }
    Ok(images)
}

/// The board in a file of a folder, and the images of its cores.
#[tactic(auto, unfolding(crate::specs::Boards::asked_machine))]
pub fn read_machine<F: Folder>(
    alloc: Global,
    folder: &mut F,
    name: &str,
) -> Result<(Board, Items<Image>), Failure>
    ensures machine { (files : Files) → F.files folder.old ≡ Some files → Gives (λ machine. machine) (asked_machine files name.now) result }
    ensures valid { IfOk result (λ machine. IsValid machine.0) }
    ensures each { IfOk result (λ machine. length machine.1 ≡ length machine.0.core) }
    ensures sized { IfOk result (λ machine. AllByRecursion IsSized machine.1) }
    ensures folder { LeavesFolder (F.files folder.old) (F.files folder.new) (F.faults folder.old) (F.faults folder.new) result }
{
    n2_parts::laws::valid_boards();
    let board = read_board(alloc, folder, name)?;
    let images = read_images(alloc, folder, board.core.as_slice())?;
    Ok((board, images))
}
