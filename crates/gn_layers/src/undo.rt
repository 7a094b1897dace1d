// Names of a map that are set with a way back.

ghost use Rattle.std.specs.Prelude.{◌≡◌, IfOk, OnOk};
ghost use Rattle.std.specs.BTreeMap.{insert_entry};
ghost use Rattle.gn_layers.specs.Undoing.{put_back, all_put_back};

use crate::copied::Copied;
use std::alloc::{AllocError, Global};
use std::collections::BTreeMap;

/// Sets a name, and puts what it had before behind `before`. After want of memory nothing is changed.
pub(crate) fn set_name<K: Ord + Copied, V: Drop>(
    alloc: Global,
    map: &mut BTreeMap<K, V>,
    before: &mut Vec<(K, Option<V>)>,
    name: &K,
    value: V,
) -> Result<(), AllocError>
    ensures ok { OnOk result (map.new.entries ≡ insert_entry K.cmp map.old.entries name.now value) }
    ensures back { all_put_back K.cmp before.new.items map.new.entries
        ≡ all_put_back K.cmp before.old.items map.old.entries }
{
    before.reserve(1)?;
    let (kept, own) = copied_twice(alloc, name)?;
    let old = map.insert(own, value)?;
    before.push_reserved((kept, old));
    Ok(())
}

// Two copies.
fn copied_twice<K: Copied>(alloc: Global, name: &K) -> Result<(K, K), AllocError>
    ensures { IfOk result (λ copies. (copies.0 ≡ name.now) × (copies.1 ≡ name.now)) }
{
    let first = name.copied(alloc)?;
    let second = name.copied(alloc)?;
    Ok((first, second))
}

// Lets a name have what it had before. It takes no memory.
fn put_back<K: Ord + Drop, V: Drop>(map: &mut BTreeMap<K, V>, name: &K, before: Option<V>)
    ensures { map.new.entries ≡ put_back K.cmp name.now before map.old.entries }
{
    let Some(value) = before else {
        let _gone = map.remove(name);
        return;
    };
    if let Some(place) = map.get_mut(name) {
        *place = value;
    }
}

/// Lets all names have what they had before, the one that was set last first. It takes no memory.
pub(crate) fn put_all_back<K: Ord + Drop, V: Drop>(
    map: &mut BTreeMap<K, V>,
    before: Vec<(K, Option<V>)>,
)
    ensures { map.new.entries ≡ all_put_back K.cmp before.items map.old.entries }
{
    let mut before = before;
    while let Some((name, old)) = before.pop() {
        put_back(map, &name, old);
    }
}
