// The tasks that are ready, in the order in which they are given out, each with the number of its key.

ghost use Rattle.std.specs.Prelude.{◌≡◌, OnOk, OnErr, Some, None};
ghost use Rattle.std.specs.BTreeMap.{get};
ghost use Rattle.gn_book.specs.Keys.{key_of};
ghost use Rattle.gn_book.specs.Tasks.{IsPut, AreKept, IsFirst};

use crate::event::KeyId;
use crate::task::{Task, task_of};
use gn_items::Key;
use std::alloc::{AllocError, Global};
use std::collections::BTreeMap;

pub(crate) type Ready = BTreeMap<Task, KeyId>;

// A key that gets a number is ready, if it is a task.
pub(crate) fn offer(
    alloc: Global,
    ready: &mut Ready,
    key: &Key,
    number: KeyId,
) -> Result<(), AllocError>
    ensures ok { OnOk result (IsPut (get ⟦<Task as Ord>⟧.cmp ready.old) (get ⟦<Task as Ord>⟧.cmp ready.new) (key_of key.now) (Some number)) }
    ensures err { OnErr result (AreKept (get ⟦<Task as Ord>⟧.cmp ready.old) (get ⟦<Task as Ord>⟧.cmp ready.new)) }
{
    match task_of(alloc, key)? {
        None => Ok(()),
        Some(task) => {
            ready.insert(task, number)?;
            Ok(())
        }
    }
}

// A key is no longer ready.
pub(crate) fn withdraw(ready: &mut Ready, key: Key) -> Key
    ensures key { result ≡ key }
    ensures ready { IsPut (get ⟦<Task as Ord>⟧.cmp ready.old) (get ⟦<Task as Ord>⟧.cmp ready.new) (key_of key) None }
{
    match Task::new(key) {
        Err(other) => other,
        Ok(task) => {
            let _ = ready.remove(&task);
            task.into_key()
        }
    }
}

// The number of the first key that is ready.
pub(crate) fn first_ready(ready: &Ready) -> Option<KeyId>
    ensures { IsFirst (get ⟦<Task as Ord>⟧.cmp ready.now) result }
{
    match ready.first_key_value() {
        None => None,
        Some(first) => Some(*first.1),
    }
}
