//! Names with their values.

ghost use Rattle.std.specs.Prelude.{◌≡◌, ℕ, List, Some, IfOk, OnOk, if◌then◌else◌};
ghost use Rattle.std.specs.Option.{is_some};
ghost use Rattle.std.specs.Str.{bytes_eq};
ghost use Rattle.std.specs.BTreeMap.{get_by_text};
ghost use Rattle.n2_statement.specs.Names.{named};

use n2_word::NoMemory;
use std::alloc::{AllocError, Global};
use std::collections::BTreeMap;

/// The value of a name.
pub fn find<V: Copy>(names: &BTreeMap<String, V>, name: &str) -> Option<V>
    ensures { result ≡ get_by_text names.now name.now }
{
    names.get(name).copied()
}

/// Gives a name a value.
fn insert<V: Copy>(
    alloc: Global,
    names: &mut BTreeMap<String, V>,
    name: &str,
    value: V,
) -> Result<(), AllocError>
    ensures { OnOk result ((q : List ℕ) → get_by_text names.new q ≡ (if bytes_eq name.now q then Some value else get_by_text names.old q)) }
{
    let key = String::from_str(alloc, name)?;
    names.insert(key, value)?;
    Ok(())
}

/// Gives a name a value where it has none, and says whether it had one.
pub fn define<V: Copy>(
    alloc: Global,
    names: &mut BTreeMap<String, V>,
    name: &str,
    value: V,
) -> Result<bool, NoMemory>
    ensures known { IfOk result (λ known. known ≡ is_some (get_by_text names.old name.now)) }
    ensures names { OnOk result (get_by_text names.new ≡ named (get_by_text names.old) name.now value) }
{
    if find(names, name).is_some() {
        return Ok(true);
    }
    match insert(alloc, names, name, value) {
        Ok(()) => Ok(false),
        Err(_) => Err(NoMemory),
    }
}
