//! `plain FILE STEPS`: an image on the plain board, without caches.

ghost use Rattle.std.specs.Prelude.{◌≡◌, ◌<◌, ℕ, ◌∷◌, [], Some, None, IfOk, OnOk, length, replicate};
ghost use Rattle.n2_outside.specs.Files.{Files, file_at};
ghost use Rattle.n2_elf.specs.Reading.{IsSized};
ghost use Rattle.n2_board.specs.Placement.{open_fault};
ghost use Rattle.n2_flat.specs.PlainBoard.{plain_board, plain_map};
ghost use Rattle.n2_parts.specs.declared.stops.Act.TheVariants.{Retire};
ghost use Rattle.n2_bus.specs.Wiring.{wiring_of};
ghost use Rattle.n2_runs.specs.FlatRun.{flat as after_acts};
ghost use Rattle.n2_flat.specs.State.{IsWhole, machine_of};
ghost use Rattle.n2_top.specs.Commands.{Plain};
ghost use Rattle.n2_top.specs.Asked.{PlainRun};
ghost use Rattle.n2_top.specs.Plain.{asked_plain, plain_run, plain_answer};
ghost use Rattle.n2_top.specs.Answers.{reply_to};
ghost use Rattle.n2_inputs.specs.Calls.{Gives, LeavesFolder};

use crate::answers::Answer;
use crate::flat::answer_of;
use n2_board::{Act, Layout};
use n2_elf::Image;
use n2_flat::{Flat, plain_board};
use n2_inputs::{Failure, Role, fetch_file, image_in};
use n2_outside::Folder;
use n2_word::NoMemory;
use std::alloc::Global;
use std::slice;

/// The number of the plain board's core.
const CORE: u32 = 0;
/// Where a file that is no ELF file is loaded.
const AT: u32 = 0;

/// An image that fits the plain board, and the layout of the board with it.
#[derive(Drop)]
struct Fitting {
    image: Image,
    layout: Layout,
}

/// The image of a file, where it fits the plain board.
#[tactic(auto, unfolding(crate::specs::Plain::asked_plain))]
fn ask<F: Folder>(alloc: Global, file: &str, folder: &mut F) -> Result<Fitting, Failure>
    ensures asked { (files : Files) → F.files folder.old ≡ Some files → (steps : ℕ) → Gives (λ a. PlainRun a.image steps) (asked_plain (file_at files file.now) steps) result }
    ensures sized { IfOk result (λ a. IsSized a.image) }
    ensures fits { IfOk result (λ a. open_fault plain_board (a.image ∷ []) ≡ None) }
    ensures opened { IfOk result (λ a. a.layout ≡ plain_map a.image) }
    ensures folder { LeavesFolder (F.files folder.old) (F.files folder.new) (F.faults folder.old) (F.faults folder.new) result }
{
    let bytes = fetch_file(alloc, folder, file, Role::Image(CORE))?;
    let image = image_in(alloc, &bytes, CORE, AT)?;
    let board = plain_board(alloc)?;
    let layout = Layout::open(alloc, &board, slice::from_ref(&image))?;
    Ok(Fitting { image, layout })
}

/// The flat machine after so many acts of its core, or up to the core's stop.
fn run(flat: &mut Flat, layout: &Layout, steps: u32) -> Result<(), NoMemory>
    requires whole { IsWhole layout.now flat.old }
    requires board { flat.old.board ≡ plain_board }
    requires core { length flat.old.cores ≡ 1 }
    ensures memories { flat.new.common.wiring ≡ wiring_of plain_board }
    ensures core { length flat.new.cores ≡ 1 }
    ensures acts { OnOk result (machine_of flat.new ≡ after_acts plain_board layout.now (machine_of flat.old) (replicate steps (Retire 0))) }
{
    for step in 0..steps {
        if flat.stop(CORE).is_some() {
            return Ok(());
        }
        flat.act(layout, &Act::Retire(CORE))?;
    }
    Ok(())
}

/// The answer of its run.
fn answer(alloc: Global, asked: &Fitting, steps: u32) -> Result<Answer, NoMemory>
    requires sized { IsSized asked.now.image }
    requires fits { open_fault plain_board (asked.now.image ∷ []) ≡ None }
    requires opened { asked.now.layout ≡ plain_map asked.now.image }
    ensures answer { IfOk result (λ a. a ≡ plain_answer (plain_run asked.now.image steps)) }
    ensures status { IfOk result (λ a. a.status < 3) }
{
    let board = plain_board(alloc)?;
    let mut flat = Flat::open(alloc, &board, slice::from_ref(&asked.image), &asked.layout)?;
    run(&mut flat, &asked.layout, steps)?;
    answer_of(alloc, &board, &flat)
}

/// The flat report of a file of the folder on the plain board, after so many acts.
pub fn answer_plain<F: Folder>(
    alloc: Global,
    file: &str,
    steps: u32,
    folder: &mut F,
) -> Result<Answer, Failure>
    ensures answer { (files : Files) → F.files folder.old ≡ Some files → Gives (λ a. a) (reply_to (Plain file.now steps) files) result }
    ensures folder { LeavesFolder (F.files folder.old) (F.files folder.new) (F.faults folder.old) (F.faults folder.new) result }
    ensures journal { IfOk result (λ a. a.journal ≡ []) }
    ensures status { IfOk result (λ a. a.status < 3) }
{
    let asked = ask(alloc, file, folder)?;
    Ok(answer(alloc, &asked, steps)?)
}
