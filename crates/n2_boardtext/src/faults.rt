//! The first thing that is wrong with a text's tree, before a board is made of it.

ghost use Rattle.std.specs.Prelude.{◌≡◌, ◌<◌, ◌^◌, None, map, length};
ghost use Rattle.std.specs.List.{list_all};
ghost use Rattle.std.specs.Result.{result_err};
ghost use Rattle.toml.specs.View.{view, table_view};
ghost use Rattle.n2_boardtext.specs.Faults as spec;

use crate::document::Document;
use crate::fault::{TextFault, unless};
use crate::keys::{
    Entry, Named, Sort, Word, any_entries, entries_by, first_entries, first_key, key_of,
    last_entries, sort_of, word_of,
};
use crate::values::{array_at, in_range, value_at, word_in};
use crate::words::{key_name, kind_name};
use n2_parts::{ARRAYS, Key, Part, PartKind};
use toml::{Table, Value};

/// Whether all values are texts.
fn are_texts(items: &[Value]) -> bool
    ensures { result ≡ list_all (λ item. spec.is_text (view item)) items.now }
{
    items.iter().all(|item| item.as_str().is_some())
}

/// Whether a value is the name of a part.
fn is_part(document: &Document<'_>, array: Named, value: &Value) -> bool
    ensures { result ≡ spec.is_part array (table_view document.now.tree.now) (view value.now) }
{
    match value.as_str() {
        Some(name) => document.index_of(array, name).is_some(),
        None => false,
    }
}

/// Whether all values are names of parts.
fn are_parts(document: &Document<'_>, array: Named, items: &[Value]) -> bool
    ensures { result ≡ list_all (λ item. spec.is_part array (table_view document.now.tree.now) (view item)) items.now }
{
    items.iter().all(|item| is_part(document, array, item))
}

/// Checks a list of names: that all are texts, and then that all are names of parts.
fn check_names(
    document: &Document<'_>,
    part: Part,
    key: Key,
    array: Named,
    items: &[Value],
) -> Result<(), TextFault>
    ensures { result_err result ≡ spec.names_fault (table_view document.now.tree.now) part key array (map view items.now) }
{
    unless(are_texts(items), TextFault::Kind(part, key))?;
    unless(
        are_parts(document, array, items),
        TextFault::NoPart(part, key),
    )
}

/// Checks the value of a key: `Kind`, `Range` and `NoPart`.
#[tactic(auto, using(crate::proofs::Steps::list_steps), unfolding(crate::specs::Faults::value_fault))]
fn check_value(
    document: &Document<'_>,
    part: Part,
    key: Key,
    sort: Sort,
    value: &Value,
) -> Result<(), TextFault>
    ensures { result_err result ≡ spec.value_fault (table_view document.now.tree.now) part key sort (view value.now) }
{
    let other_kind = TextFault::Kind(part, key);
    let no_part = TextFault::NoPart(part, key);
    match sort {
        Sort::Number(most) => {
            let integer = value.as_integer().ok_or(other_kind)?;
            unless(
                in_range(most, integer).is_some(),
                TextFault::Range(part, key),
            )
        }
        Sort::Text => {
            value.as_str().ok_or(other_kind)?;
            Ok(())
        }
        Sort::Choice => {
            let text = value.as_str().ok_or(other_kind)?;
            unless(word_of(key, text).is_some(), no_part)
        }
        Sort::Name(array) => {
            let name = value.as_str().ok_or(other_kind)?;
            unless(document.index_of(array, name).is_some(), no_part)
        }
        Sort::Names(array) => {
            let names = value.as_array().ok_or(other_kind)?;
            check_names(document, part, key, array, names.as_slice())
        }
    }
}

/// Checks a key of a part, which may not be there.
fn check_entry(
    document: &Document<'_>,
    part: Part,
    table: &Table,
    entry: Entry,
) -> Result<(), TextFault>
    ensures { result_err result ≡ spec.entry_fault (table_view document.now.tree.now) part (table_view table.now) entry }
{
    let key = key_of(entry);
    match value_at(table, key) {
        Some(value) => check_value(document, part, key, sort_of(key), value),
        None => match entry {
            Entry::Must(key) => Err(TextFault::Missing(part, key)),
            Entry::May(_) => Ok(()),
        },
    }
}

/// Checks some keys of a part in order.
#[tactic(auto, unfolding(crate::specs::Faults::entries_fault))]
fn check_entries(
    document: &Document<'_>,
    part: Part,
    table: &Table,
    entries: &[Entry],
) -> Result<(), TextFault>
    ensures { result_err result ≡ spec.entries_fault (table_view document.now.tree.now) part (table_view table.now) entries.now }
{
    for entry in entries {
        check_entry(document, part, table, *entry)?;
    }
    Ok(())
}

/// Whether a name is that of one of some keys.
fn names_entry(name: &str, entries: &[Entry]) -> bool
    ensures { result ≡ spec.names_entry name.now entries.now }
{
    entries.iter().any(|entry| name == key_name(key_of(*entry)))
}

/// Whether a name is that of one of some arrays.
fn names_kind(name: &str, kinds: &[PartKind]) -> bool
    ensures { result ≡ spec.names_kind name.now kinds.now }
{
    kinds.iter().any(|kind| name == kind_name(*kind))
}

/// The arrays whose names the text itself has as keys.
fn known_kinds(kind: PartKind) -> &'static [PartKind]
    ensures { result.now ≡ spec.known_kinds kind }
{
    match kind {
        PartKind::Top => &ARRAYS,
        _ => &[],
    }
}

/// Whether a part has such a key.
#[tactic(auto, unfolding(crate::specs::Faults::is_known))]
fn is_known(kind: PartKind, word: Option<Word>, name: &str) -> bool
    ensures { result ≡ spec.is_known kind word name.now }
{
    names_entry(name, first_entries(kind))
        || names_entry(name, entries_by(word, any_entries(kind)))
        || names_entry(name, last_entries(kind))
        || names_kind(name, known_kinds(kind))
}

/// Whether a part has all keys of a table.
#[tactic(auto, unfolding(crate::specs::Faults::are_known))]
fn are_known(kind: PartKind, word: Option<Word>, table: &Table) -> bool
    ensures { result ≡ spec.are_known kind word (table_view table.now) }
{
    for (name, _value) in table.iter() {
        if !is_known(kind, word, name.as_str()) {
            return false;
        }
    }
    true
}

/// Checks a table: that it has no unknown key, and then its keys in order.
#[tactic(auto, unfolding(crate::specs::Faults::table_fault))]
fn check_table(document: &Document<'_>, part: Part, table: &Table) -> Result<(), TextFault>
    ensures { result_err result ≡ spec.table_fault (table_view document.now.tree.now) part (table_view table.now) }
{
    let word = word_in(part.kind, table);
    unless(are_known(part.kind, word, table), TextFault::Unknown(part))?;
    check_entries(document, part, table, first_entries(part.kind))?;
    check_entries(document, part, table, entries_by(word, &[]))?;
    check_entries(document, part, table, last_entries(part.kind))
}

/// Checks a value that is to be the table of a part.
fn check_part(document: &Document<'_>, part: Part, value: &Value) -> Result<(), TextFault>
    ensures { result_err result ≡ spec.part_fault (table_view document.now.tree.now) part (view value.now) }
{
    let table = value
        .as_table()
        .ok_or(TextFault::Kind(part, first_key(part.kind)))?;
    check_table(document, part, table)
}

/// Checks the parts of an array in order.
#[tactic(auto, unfolding(crate::specs::Faults::parts_fault))]
fn check_parts(document: &Document<'_>, kind: PartKind, items: &[Value]) -> Result<(), TextFault>
    requires { length items.now < 2 ^ 32 }
    ensures { result_err result ≡ spec.parts_fault (table_view document.now.tree.now) kind 0 (map view items.now) }
{
    for (i, item) in items.iter().enumerate() {
        let index = i as u32;
        check_part(document, Part { kind, index }, item)?;
    }
    Ok(())
}

/// Checks an array, which need not be there.
#[tactic(auto, using(crate::proofs::Steps::list_steps), unfolding(crate::specs::Faults::array_fault))]
fn check_array(document: &Document<'_>, kind: PartKind) -> Result<(), TextFault>
    requires { spec.length_fault (table_view document.now.tree.now) kind ≡ None }
    ensures { result_err result ≡ spec.array_fault (table_view document.now.tree.now) kind }
{
    let first = Part { kind, index: 0 };
    match array_at(document.tree, kind) {
        Some(value) => {
            let array = value
                .as_array()
                .ok_or(TextFault::Kind(first, first_key(kind)))?;
            check_parts(document, kind, array.as_slice())
        }
        None => Ok(()),
    }
}

/// Checks some arrays in order.
#[tactic(auto, unfolding(crate::specs::Faults::arrays_fault, crate::specs::Faults::lengths_fault))]
fn check_arrays(document: &Document<'_>, kinds: &[PartKind]) -> Result<(), TextFault>
    requires { spec.lengths_fault (table_view document.now.tree.now) kinds.now ≡ None }
    ensures { result_err result ≡ spec.arrays_fault (table_view document.now.tree.now) kinds.now }
{
    for kind in kinds {
        check_array(document, *kind)?;
    }
    Ok(())
}

/// Checks a text: its own keys, and then its arrays in order. The error is its first fault.
#[tactic(auto, unfolding(crate::specs::Faults::text_fault))]
pub fn check_text(document: &Document<'_>) -> Result<(), TextFault>
    ensures { result_err result ≡ spec.text_fault (table_view document.now.tree.now) }
{
    let top = Part {
        kind: PartKind::Top,
        index: 0,
    };
    check_table(document, top, document.tree)?;
    check_arrays(document, &ARRAYS)
}
