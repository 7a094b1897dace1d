// The keys that seats have claimed, by their numbers, each with its seat.

ghost use Rattle.std.specs.Prelude.{◌≡◌, OnOk, OnErr, Some, None};
ghost use Rattle.std.specs.BTreeMap.{get};
ghost use Rattle.std.specs.Ordering.{nat_cmp};
ghost use Rattle.gn_book.specs.Tasks.{IsSeated, SeatsAreKept, IsOneSeated};

use crate::event::KeyId;
use std::alloc::AllocError;
use std::collections::BTreeMap;

pub(crate) type Held = BTreeMap<KeyId, u32>;

// A seat has claimed a key.
pub(crate) fn hold(held: &mut Held, number: KeyId, seat: u32) -> Result<(), AllocError>
    ensures ok { OnOk result (IsSeated (get nat_cmp held.old) (get nat_cmp held.new) number (Some seat)) }
    ensures err { OnErr result (SeatsAreKept (get nat_cmp held.old) (get nat_cmp held.new)) }
{
    held.insert(number, seat)?;
    Ok(())
}

// No seat has claimed a key any longer.
pub(crate) fn release(held: &mut Held, number: KeyId)
    ensures { IsSeated (get nat_cmp held.old) (get nat_cmp held.new) number None }
{
    let _ = held.remove(&number);
}

// A key that a seat has claimed, if there is one.
pub(crate) fn first_held(held: &Held) -> Option<(KeyId, u32)>
    ensures { IsOneSeated (get nat_cmp held.now) result }
{
    match held.first_key_value() {
        None => None,
        Some(first) => Some((*first.0, *first.1)),
    }
}
