//! All that a command asks for before its machine opens.

ghost use Rattle.std.specs.Prelude.{◌≡◌, ◌<◌, ◌+◌, Some, length, All, IfOk};
ghost use Rattle.std.specs.List.{AllByRecursion};
ghost use Rattle.n2_outside.specs.Files.{Files};
ghost use Rattle.n2_elf.specs.Reading.{IsSized};
ghost use Rattle.n2_parts.specs.Valid.{IsValid};
ghost use Rattle.n2_order.specs.Orders.{asked};
ghost use Rattle.n2_journal.specs.Journals.{IsWithinLimits, HasOrder};
ghost use Rattle.n2_inputs.specs.Asked.{fitted, asked_inputs, asked_run, asked_replay, IsReady};
ghost use Rattle.n2_inputs.specs.Calls.{Gives, LeavesFolder, ReadFails};

use crate::boards::read_machine;
use crate::journals::read_journal;
use crate::orders::read_order;
use crate::refusal::Failure;
use n2_board::{Board, Layout};
use n2_elf::Image;
use n2_journal::Journal;
use n2_order::Order;
use n2_outside::Folder;
use n2_text::Items;
use std::alloc::Global;

/// A board with the images of its cores, and their layout.
#[derive(Drop)]
pub struct Inputs {
    pub board: Board,
    pub images: Items<Image>,
    pub layout: Layout,
}

/// A board with its images and their layout. Images that do not fit the board are refused with the first
/// thing that does not fit.
#[tactic(auto, unfolding(crate::specs::Asked::fitted))]
pub fn fit(alloc: Global, board: Board, images: Items<Image>) -> Result<Inputs, Failure>
    requires valid { IsValid board }
    requires images { length images ≡ length board.core }
    requires sized { AllByRecursion IsSized images }
    ensures inputs { Gives (λ inputs. inputs) (fitted board images) result }
    ensures unread { ¬ ReadFails result }
    ensures ready { IfOk result (λ inputs. IsReady inputs) }
    ensures cores { IfOk result (λ inputs. inputs.board ≡ board) }
{
    let layout = Layout::open(alloc, &board, images.as_slice())?;
    Ok(Inputs {
        board,
        images,
        layout,
    })
}

/// What a run asks for: the board in a file, its images core by core, and the layout. The first refusal
/// in this order ends it.
#[tactic(auto, unfolding(crate::specs::Asked::asked_inputs))]
pub fn read_inputs<F: Folder>(alloc: Global, folder: &mut F, board: &str) -> Result<Inputs, Failure>
    ensures asked { (files : Files) → F.files folder.old ≡ Some files → Gives (λ inputs. inputs) (asked_inputs files board.now) result }
    ensures ready { IfOk result (λ inputs. IsReady inputs) }
    ensures folder { LeavesFolder (F.files folder.old) (F.files folder.new) (F.faults folder.old) (F.faults folder.new) result }
{
    let (board, images) = read_machine(alloc, folder, board)?;
    fit(alloc, board, images)
}

/// What a run over an order asks for: the board in a file, its images core by core, the actors that
/// the order's file lists, none where the order has no file, and the layout. The first refusal in
/// this order ends it.
#[tactic(auto, unfolding(crate::specs::Asked::asked_run))]
pub fn read_run<F: Folder>(
    alloc: Global,
    folder: &mut F,
    board: &str,
    order: &Order<'_>,
) -> Result<(Inputs, Vec<u32>), Failure>
    ensures asked { (files : Files) → F.files folder.old ≡ Some files → Gives (λ a. (a.0, a.1.items)) (asked_run files board.now (asked order.now)) result }
    ensures ready { IfOk result (λ a. IsReady a.0) }
    ensures actors { IfOk result (λ a. All (λ actor. actor < length a.0.board.core + 1) a.1.items) }
    ensures folder { LeavesFolder (F.files folder.old) (F.files folder.new) (F.faults folder.old) (F.faults folder.new) result }
{
    n2_parts::laws::valid_boards();
    let (board, images) = read_machine(alloc, folder, board)?;
    let list = read_order(alloc, folder, order, board.core.len() as u32)?;
    let inputs = fit(alloc, board, images)?;
    Ok((inputs, list))
}

/// What a run that a journal tells asks for: the board in a file, its images core by core, the
/// journal in a file, and the layout. The first refusal in this order ends it.
#[tactic(auto, unfolding(crate::specs::Asked::asked_replay))]
pub fn read_replay<F: Folder>(
    alloc: Global,
    folder: &mut F,
    board: &str,
    journal: &str,
) -> Result<(Inputs, Journal), Failure>
    ensures asked { (files : Files) → F.files folder.old ≡ Some files → Gives (λ a. (a.0, a.1.content)) (asked_replay files board.now journal.now) result }
    ensures ready { IfOk result (λ a. IsReady a.0) }
    ensures within { IfOk result (λ a. IsWithinLimits a.1.content) }
    ensures order { IfOk result (λ a. HasOrder a.1.content) }
    ensures folder { LeavesFolder (F.files folder.old) (F.files folder.new) (F.faults folder.old) (F.faults folder.new) result }
{
    let (board, images) = read_machine(alloc, folder, board)?;
    let journal = read_journal(alloc, folder, journal)?;
    let inputs = fit(alloc, board, images)?;
    Ok((inputs, journal))
}
