// Entries in the order of their names: a look-up, and setting a name.

ghost use Rattle.std.specs.Prelude.{◌≡◌, ◌≤◌, length, IfOk, OnOk, OnErr, is_none, map};
ghost use Rattle.gn_values.specs.Val.{scope_depth, IsSortedByName};
ghost use Rattle.gn_values.specs.Operators.{value_at, with_entry};
ghost use Rattle.gn_values.specs.Search.{IsPlaceOf};
ghost use Rattle.gn_values.specs.Shared.{parts};
ghost use Rattle.gn_values.specs.View.{val_of, entry_of};

use crate::shared::Shared;
use crate::value::{Entry, Value};
use gn_paths::Text;
use std::alloc::AllocError;
use std::cmp::Ordering;
use std::sync::Arc;

/// The place of the entry of this name, or the place where it would stand.
pub(crate) fn find_entry(entries: &[Entry], name: &[u8]) -> Result<usize, usize>
    requires { IsSortedByName (map entry_of entries.now) }
    ensures { IsPlaceOf name.now entries.now result }
{
    let mut low = 0;
    let mut high = entries.len();
    while low < high {
        let middle = low + (high - low) / 2;
        match entries[middle].name.as_bytes().cmp(name) {
            Ordering::Less => low = middle + 1,
            Ordering::Greater => high = middle,
            Ordering::Equal => return Ok(middle),
        }
    }
    Err(low)
}

/// Sets the value of a name, and answers whether the name is new. A new name costs a move of the
/// entries behind it.
pub(crate) fn set_entry(
    entries: &mut Vec<Entry>,
    name: Text,
    value: Value,
) -> Result<bool, AllocError>
    requires { IsSortedByName (map entry_of entries.old.items) }
    ensures ok { OnOk result
        (map entry_of entries.new.items
        ≡ with_entry (map entry_of entries.old.items) name (val_of value)) }
    ensures added { IfOk result
        (λ added. added ≡ is_none (value_at name (map entry_of entries.old.items))) }
    ensures err { OnErr result (entries.new.items ≡ entries.old.items) }
{
    match find_entry(entries.as_slice(), name.as_bytes()) {
        Ok(at) => {
            entries[at].value = value;
            Ok(false)
        }
        Err(at) => {
            entries.insert(at, Entry { name, value })?;
            Ok(true)
        }
    }
}

/// Sets the value of a name among entries that others may have too, as `set_entry` does: in place where
/// nobody else has them.
pub(crate) fn set_shared(
    entries: &mut Shared<Entry>,
    name: Text,
    value: Value,
) -> Result<bool, AllocError>
    requires { IsSortedByName (map entry_of (parts entries.old)) }
    ensures ok { OnOk result
        (map entry_of (parts entries.new)
        ≡ with_entry (map entry_of (parts entries.old)) name (val_of value)) }
    ensures added { IfOk result
        (λ added. added ≡ is_none (value_at name (map entry_of (parts entries.old)))) }
    ensures err { OnErr result (parts entries.new ≡ parts entries.old) }
{
    if let Some(shared) = &mut entries.owned {
        if let Some(own) = Arc::get_mut(shared) {
            return set_entry(own, name, value);
        }
    }
    let mut copies = entries.copies()?;
    let added = set_entry(&mut copies, name, value)?;
    entries.replace(copies)?;
    Ok(added)
}

/// How deep a scope of these entries nests.
pub(crate) fn depth_of_entries(entries: &[Entry]) -> u8
    ensures { result ≡ scope_depth (map entry_of entries.now) }
{
    let mut deepest = 0;
    for entry in entries {
        deepest = deepest.max(entry.value.depth() as u8);
    }
    deepest + 1
}
