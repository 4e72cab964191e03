//! The board of a text.

ghost use Rattle.std.specs.Prelude.{◌≡◌, ◌≢◌, IfOk, IfErr, Ok, Err, Some, None};
ghost use Rattle.toml.specs.View.{table_view};
ghost use Rattle.n2_parts.specs.Valid.{IsValid};
ghost use Rattle.n2_boardtext.specs.Reading as spec;
ghost use Rattle.n2_boardtext.specs.Reading.{text_board};

use crate::boards::board_of;
use crate::document::Document;
use crate::fault::TextFault;
use crate::faults::check_text;
use n2_parts::{Board, valid};
use std::alloc::Global;
use toml::Table;

/// The tree of a text.
#[tactic(auto, using(crate::proofs::Trees::tree_steps), unfolding(crate::specs::Reading::tree_of))]
fn tree_of(alloc: Global, text: &[u8]) -> Result<Table, TextFault>
    ensures tree { IfOk result (λ tree. spec.tree_of text.now ≡ Some (table_view tree)) }
    ensures fault { IfErr result (λ fault. fault ≢ TextFault.NoMemory → fault ≡ TextFault.NotToml) }
    ensures refused { result ≡ Err TextFault.NotToml → spec.tree_of text.now ≡ None }
{
    match toml::table_from_slice(alloc, text) {
        Ok(tree) => Ok(tree),
        Err(error) => {
            if error.is_memory() {
                Err(TextFault::NoMemory)
            } else {
                Err(TextFault::NotToml)
            }
        }
    }
}

/// The board of a tree.
#[tactic(auto, unfolding(crate::specs::Reading::reading, crate::specs::Faults::text_fault))]
fn board_in(alloc: Global, tree: &Table) -> Result<Board, TextFault>
    ensures board { IfOk result (λ board. spec.reading (table_view tree.now) ≡ Ok board) }
    ensures valid { IfOk result (λ board. IsValid board) }
    ensures fault { IfErr result (λ fault. fault ≢ TextFault.NoMemory → spec.reading (table_view tree.now) ≡ Err fault) }
{
    let document = Document::open(alloc, tree)?;
    check_text(&document)?;
    let board = board_of(alloc, &document)?;
    valid(&board)?;
    Ok(board)
}

/// The board of a text, which is TOML, or the first thing that is wrong with it: that it is not
/// TOML; then `Board(Count)` of an array of 2^32 parts or more; then an unknown key of the board;
/// then the board's keys in order; then the arrays in order, in each of them the tables in order, in
/// a table an unknown key and then its keys in order, and at a key `Missing`, `Kind`, `Range` and
/// `NoPart`; and last the first rule that the board breaks. The keys of each array, what they hold
/// and their defaults are those of `specs/Keys.antt`.
#[tactic(auto, unfolding(crate::specs::Reading::text_board))]
pub fn read(alloc: Global, text: &[u8]) -> Result<Board, TextFault>
    ensures board { IfOk result (λ board. text_board text.now ≡ Ok board) }
    ensures valid { IfOk result (λ board. IsValid board) }
    ensures fault { IfErr result (λ fault. fault ≢ TextFault.NoMemory → text_board text.now ≡ Err fault) }
{
    let tree = tree_of(alloc, text)?;
    board_in(alloc, &tree)
}
