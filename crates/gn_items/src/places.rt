// Where the items of labels stand.

ghost use Rattle.std.specs.Prelude.{◌≡◌, ◌<◌, length, vec_len, vec_capacity, OnOk, OnErr};
ghost use Rattle.std.specs.BTreeMap.{IsUnchanged};
ghost use Rattle.gn_items.specs.Labels.{IsNoted};

use crate::item::Item;
use gn_labels::Label;
use std::alloc::{AllocError, Global};
use std::collections::BTreeMap;

// Makes room for one more item. Where there is none it grows by half, since most files define few items.
fn make_room(items: &mut Vec<Item>) -> Result<(), AllocError>
    ensures items { items.new.items ≡ items.old.items }
    ensures room { OnOk result (vec_len items.new < vec_capacity items.new) }
{
    let count = items.len();
    if count < items.capacity() {
        Ok(())
    } else {
        items.reserve_exact(count / 2 + 1)
    }
}

/// Makes room for one more item, and puts down where it will stand, unless its label has a place. After want of memory nothing is
/// changed.
pub(crate) fn make_place(
    alloc: Global,
    items: &mut Vec<Item>,
    places: &mut BTreeMap<Label, usize>,
    label: &Label,
) -> Result<(), AllocError>
    ensures items { items.new.items ≡ items.old.items }
    ensures room { OnOk result (vec_len items.new < vec_capacity items.new) }
    ensures ok { OnOk result (IsNoted ⟦<Label as Ord>⟧.cmp places.old places.new label.now (length items.old.items)) }
    ensures err { OnErr result (IsUnchanged places.old places.new) }
{
    make_room(items)?;
    note_place(alloc, places, label, items.as_slice().len())
}

// Puts down where the item of a label stands, unless the label has a place. After want of memory nothing is changed.
#[tactic(auto, using(crate::proofs::LabelLemmas::is_known, crate::proofs::LabelLemmas::is_noted))]
fn note_place(
    alloc: Global,
    places: &mut BTreeMap<Label, usize>,
    label: &Label,
    place: usize,
) -> Result<(), AllocError>
    ensures ok { OnOk result (IsNoted ⟦<Label as Ord>⟧.cmp places.old places.new label.now place) }
    ensures err { OnErr result (IsUnchanged places.old places.new) }
{
    if places.contains_key(label) {
        return Ok(());
    }
    let key = label.copy(alloc)?;
    places.insert(key, place)?;
    Ok(())
}
