//! The tree of a board's text, with the numbers of the parts that are named elsewhere.

ghost use Rattle.std.specs.Prelude.{◌≡◌, ◌≢◌, ◌<◌, ◌^◌, ℕ, List, None, Some, IfOk, IfErr, OnOk, map, length, if◌then◌else◌};
ghost use Rattle.std.specs.Result.{result_err};
ghost use Rattle.std.specs.BTreeMap.{get_by_text};
ghost use Rattle.std.specs.List.{position_from};
ghost use Rattle.std.specs.Option.{option_or};
ghost use Rattle.std.specs.Str.{bytes_eq};
ghost use Rattle.toml.specs.View.{view, table_view};
ghost use Rattle.n2_parts.specs.Parts.{arrays as all_arrays};
ghost use Rattle.n2_boardtext.specs.declared.fault.TextFault.TheVariants as faults;
ghost use Rattle.n2_boardtext.specs.declared.keys.Named.TheVariants as arrays;
ghost use Rattle.n2_boardtext.specs.Values.{is_named, index_of};
ghost use Rattle.n2_boardtext.specs.Faults.{length_fault, lengths_fault};

use crate::fault::{TextFault, unless};
use crate::keys::{Named, kind_of};
use crate::values::{items_at, name_of};
use n2_parts::{ARRAYS, BoardFault, PartKind};
use std::alloc::{AllocError, Global};
use std::collections::BTreeMap;
use toml::{Table, Value};

/// The tree of a text whose arrays words can number, and the numbers of its named parts; of parts
/// of one name the first counts.
#[derive(Drop)]
pub struct Document<'a> {
    pub tree: &'a Table,
    mutexes: BTreeMap<String, u32>,
    mailboxes: BTreeMap<String, u32>,
    uarts: BTreeMap<String, u32>,
    ghost few: { lengths_fault (table_view tree.now) all_arrays ≡ None },
    ghost mutexes_numbered: { (name : List ℕ) → get_by_text mutexes name ≡ index_of arrays.Mutex (table_view tree.now) name },
    ghost mailboxes_numbered: { (name : List ℕ) → get_by_text mailboxes name ≡ index_of arrays.Mailbox (table_view tree.now) name },
    ghost uarts_numbered: { (name : List ℕ) → get_by_text uarts name ≡ index_of arrays.Uart (table_view tree.now) name },
}

/// Numbers a name, if it has no number.
fn put_first(
    alloc: Global,
    numbers: &mut BTreeMap<String, u32>,
    name: &str,
    number: u32,
) -> Result<(), AllocError>
    ensures { OnOk result ((q : List ℕ) → get_by_text numbers.new q ≡ option_or (get_by_text numbers.old q) (if bytes_eq name.now q then Some number else None)) }
{
    if !numbers.contains_key(name) {
        numbers.insert(String::from_str(alloc, name)?, number)?;
    }
    Ok(())
}

/// The number of the first value of each name.
fn numbers_of(alloc: Global, items: &[Value]) -> Result<BTreeMap<String, u32>, AllocError>
    requires { length items.now < 2 ^ 32 }
    ensures { IfOk result (λ numbers. (q : List ℕ) → get_by_text numbers q ≡ position_from (is_named q) 0 (map view items.now)) }
{
    let mut numbers = BTreeMap::new(alloc);
    for (i, item) in items.iter().enumerate() {
        match name_of(item) {
            Some(name) => put_first(alloc, &mut numbers, name, i as u32)?,
            None => (),
        }
    }
    Ok(numbers)
}

/// The numbers of the parts of an array, by their names.
fn numbers_at(
    alloc: Global,
    tree: &Table,
    array: Named,
) -> Result<BTreeMap<String, u32>, AllocError>
    requires { lengths_fault (table_view tree.now) all_arrays ≡ None }
    ensures { IfOk result (λ numbers. (q : List ℕ) → get_by_text numbers q ≡ index_of array (table_view tree.now) q) }
{
    numbers_of(alloc, items_at(tree, kind_of(array)))
}

/// Checks that words can number the parts of an array.
fn check_length(tree: &Table, kind: PartKind) -> Result<(), TextFault>
    ensures { result_err result ≡ length_fault (table_view tree.now) kind }
{
    let n = items_at(tree, kind).len() as u64;
    let too_many = TextFault::Board(BoardFault::Count { kind, n });
    unless(n <= u64::from(u32::MAX), too_many)
}

/// Checks some arrays in order.
#[tactic(auto, unfolding(crate::specs::Faults::lengths_fault))]
fn check_lengths(tree: &Table, kinds: &[PartKind]) -> Result<(), TextFault>
    ensures { result_err result ≡ lengths_fault (table_view tree.now) kinds.now }
{
    for kind in kinds {
        check_length(tree, *kind)?;
    }
    Ok(())
}

impl<'a> Document<'a> {
    /// The tree with its parts numbered; `Board(Count)` where an array is too long for that.
    pub fn open(alloc: Global, tree: &'a Table) -> Result<Document<'a>, TextFault>
        ensures tree { IfOk result (λ document. document.tree.now ≡ tree.entry.now) }
        ensures fault { IfErr result (λ fault. fault ≢ faults.NoMemory → lengths_fault (table_view tree.entry.now) all_arrays ≡ Some fault) }
    {
        check_lengths(tree, &ARRAYS)?;
        Ok(Document {
            tree,
            mutexes: numbers_at(alloc, tree, Named::Mutex)?,
            mailboxes: numbers_at(alloc, tree, Named::Mailbox)?,
            uarts: numbers_at(alloc, tree, Named::Uart)?,
        })
    }

    /// The number of the first part of an array that has this name.
    pub fn index_of(&self, array: Named, name: &str) -> Option<u32>
        ensures { result ≡ index_of array (table_view self.now.tree.now) name.now }
    {
        match array {
            Named::Mutex => self.mutexes.get(name).copied(),
            Named::Mailbox => self.mailboxes.get(name).copied(),
            Named::Uart => self.uarts.get(name).copied(),
        }
    }
}
