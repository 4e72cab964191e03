//! The files of orders.

ghost use Rattle.std.specs.Prelude.{◌≡◌, ◌<◌, ◌+◌, Some, All, IfOk, false};
ghost use Rattle.n2_outside.specs.Files.{Files};
ghost use Rattle.n2_order.specs.Orders.{asked};
ghost use Rattle.n2_order.specs.Lists.{list_of};
ghost use Rattle.n2_inputs.specs.Orders.{list_in as actors_in, listed, asked_list, has_file};
ghost use Rattle.n2_inputs.specs.Calls.{Gives, LeavesFolder, ReadFails};

use crate::files::fetch_file;
use crate::refusal::{Failure, Role};
use n2_order::{Order, read_list};
use n2_outside::Folder;
use std::alloc::Global;

/// The actors that a text lists.
fn list_in(alloc: Global, bytes: &[u8], cores: u32) -> Result<Vec<u32>, Failure>
    ensures list { Gives (λ list. list.items) (actors_in (list_of cores bytes.now)) result }
    ensures unread { ¬ ReadFails result }
    ensures actors { IfOk result (λ list. All (λ actor. actor < cores + 1) list.items) }
{
    Ok(read_list(alloc, bytes, cores)?)
}

/// The actors that a file lists.
#[tactic(auto, unfolding(crate::specs::Orders::listed))]
fn read_list_file<F: Folder>(
    alloc: Global,
    folder: &mut F,
    name: &str,
    cores: u32,
) -> Result<Vec<u32>, Failure>
    ensures list { (files : Files) → F.files folder.old ≡ Some files → Gives (λ list. list.items) (listed files name.now cores) result }
    ensures actors { IfOk result (λ list. All (λ actor. actor < cores + 1) list.items) }
    ensures folder { LeavesFolder (F.files folder.old) (F.files folder.new) (F.faults folder.old) (F.faults folder.new) result }
{
    let bytes = fetch_file(alloc, folder, name, Role::Order)?;
    list_in(alloc, &bytes, cores)
}

/// The actors that an order's file lists, for a board of so many cores; none for rounds and seeds,
/// which read no file. A file with a row that is no actor's is refused with that row.
pub fn read_order<F: Folder>(
    alloc: Global,
    folder: &mut F,
    order: &Order<'_>,
    cores: u32,
) -> Result<Vec<u32>, Failure>
    ensures list { (files : Files) → F.files folder.old ≡ Some files → Gives (λ list. list.items) (asked_list files (asked order.now) cores) result }
    ensures actors { IfOk result (λ list. All (λ actor. actor < cores + 1) list.items) }
    ensures folder { LeavesFolder (F.files folder.old) (F.files folder.new) (F.faults folder.old) (F.faults folder.new) result }
    ensures unread { has_file (asked order.now) ≡ false → folder.new ≡ folder.old }
{
    match *order {
        Order::Rounds(_) | Order::Seed(_) => Ok(Vec::new(alloc)),
        Order::List(name) => read_list_file(alloc, folder, name, cores),
    }
}
