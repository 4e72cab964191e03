//! What the tree of a text has at a key.

ghost use Rattle.std.specs.Prelude.{◌≡◌, ◌≤◌, IfSome, map, option_map, option_copied};
ghost use Rattle.toml.specs.Data.{get_member};
ghost use Rattle.toml.specs.View.{view, table_view};
ghost use Rattle.n2_boardtext.specs.Values as spec;

use crate::keys::{Word, word_of};
use crate::words::{key_name, kind_name};
use n2_parts::{Key, PartKind};
use toml::{Table, Value};

/// The value of a name.
fn find<'a>(table: &'a Table, name: &str) -> Option<&'a Value>
    ensures { option_map (λ v. view v.now) result ≡ get_member name.now (table_view table.now) }
{
    table.get(name)
}

/// The value of a key.
pub fn value_at<'a>(table: &'a Table, key: Key) -> Option<&'a Value>
    ensures { option_map (λ v. view v.now) result ≡ spec.value_at key (table_view table.now) }
{
    find(table, key_name(key))
}

/// The value of an array's name.
pub fn array_at<'a>(tree: &'a Table, kind: PartKind) -> Option<&'a Value>
    ensures { option_map (λ v. view v.now) result ≡ spec.array_at kind (table_view tree.now) }
{
    find(tree, kind_name(kind))
}

/// An integer, if it is from 0 to `most`.
pub fn in_range(most: u64, integer: i64) -> Option<u64>
    ensures value { result ≡ spec.in_range most integer }
    ensures small { IfSome result (λ n. n ≤ most) }
{
    let n = u64::try_from(integer).ok()?;
    (n <= most).then_some(n)
}

/// The number of a value, if it is one from 0 to `most`.
pub fn number_in(most: u64, value: &Value) -> Option<u64>
    ensures value { result ≡ spec.number_in most (view value.now) }
    ensures small { IfSome result (λ n. n ≤ most) }
{
    in_range(most, value.as_integer()?)
}

/// The text of a key, if a text is given.
pub fn text_at<'a>(table: &'a Table, key: Key) -> Option<&'a str>
    ensures { option_copied result ≡ spec.text_at key (table_view table.now) }
{
    value_at(table, key)?.as_str()
}

/// The word of a key, if one of its words is given.
pub fn word_at(table: &Table, key: Key) -> Option<Word>
    ensures { result ≡ spec.word_at key (table_view table.now) }
{
    word_of(key, text_at(table, key)?)
}

/// The word by which a part has its keys.
pub fn word_in(kind: PartKind, table: &Table) -> Option<Word>
    ensures { result ≡ spec.word_in kind (table_view table.now) }
{
    match kind {
        PartKind::Region => word_at(table, Key::Class),
        PartKind::Script => word_at(table, Key::Do),
        _ => None,
    }
}

/// The values of a list, if one is given; or else none.
#[tactic(auto, using(crate::proofs::Steps::list_steps))]
pub fn values_of<'a>(given: Option<&'a Value>) -> &'a [Value]
    ensures { map view result.now ≡ spec.values_of (option_map view (option_copied given.entry)) }
{
    match given {
        Some(value) => match value.as_array() {
            Some(array) => array.as_slice(),
            None => &[],
        },
        None => &[],
    }
}

/// The values of an array; none where the text has no such array.
pub fn items_at(tree: &Table, kind: PartKind) -> &[Value]
    ensures { map view result.now ≡ spec.items_at kind (table_view tree.now) }
{
    values_of(array_at(tree, kind))
}

/// The name of a part, if it has one.
pub fn name_of(value: &Value) -> Option<&str>
    ensures { option_copied result ≡ spec.name_of (view value.now) }
{
    text_at(value.as_table()?, Key::Name)
}
