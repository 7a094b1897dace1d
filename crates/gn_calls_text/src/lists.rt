// `split_list`.

ghost use Rattle.std.specs.Prelude.{◌≡◌, ◌<◌, ◌≤◌, ◌++◌, [], ◌∷◌, true, length, map, IfOk, OnOk, IfErr};
ghost use Rattle.gn_values.specs.Limits.{list_fits, max_items};
ghost use Rattle.gn_values.specs.Val.{vlist, vals_of};
ghost use Rattle.gn_values.specs.View.{val_of};
ghost use Rattle.gn_calls_text.specs.Answers.{list_answer};
ghost use Rattle.gn_calls_text.specs.Calls.{list_list, parts_answer, split_list_answer};
ghost use Rattle.gn_calls_text.specs.Pieces.{first_length, parted};
ghost use Rattle.gn_calls_text.specs.Views.{Settles, IsOver};

use crate::arguments::{bad_arguments, integer_of, list_of, too_long};
use crate::error::CallError;
use crate::growing::{push, push_within};
use gn_values::{Items, MAX_ITEMS, Value};
use std::alloc::{AllocError, Global};

/// Puts copies of values into an empty list.
fn copy_into(alloc: Global, items: &mut Items, values: &[Value]) -> Result<(), AllocError>
    requires none { items.old ≡ [] }
    requires fits { list_fits (map val_of values.now) ≡ true }
    ensures { OnOk result (items.new ≡ map val_of values.now) }
{
    for value in values {
        push_within(items, value.copy(alloc)?)?;
    }
    Ok(())
}

/// A list of copies of these values.
fn list_with(alloc: Global, values: &[Value]) -> Result<Items, AllocError>
    requires { list_fits (map val_of values.now) ≡ true }
    ensures { IfOk result (λ items. items ≡ map val_of values.now) }
{
    let mut items = Items::new(alloc);
    copy_into(alloc, &mut items, values)?;
    Ok(items)
}

/// Puts a list of copies of these values at the end of a list of lists.
fn push_list(alloc: Global, lists: &mut Items, values: &[Value]) -> Result<(), CallError>
    requires { list_fits (map val_of values.now) ≡ true }
    ensures ok { OnOk result
        (lists.new ≡ lists.old ++ vlist (vals_of (map val_of values.now)) ∷ []) }
    ensures fits { OnOk result (list_fits lists.new ≡ true) }
    ensures err { IfErr result
        (λ e. IsOver e (list_fits (lists.old ++ vlist (vals_of (map val_of values.now)) ∷ []))) }
{
    let list = list_with(alloc, values)?;
    push(lists, Value::List(list))
}

/// The length of the first of some lists, of which `longer` have one item above `least`.
fn first_length(least: usize, longer: usize) -> usize
    requires { least ≤ max_items }
    ensures { result ≡ first_length least longer }
{
    if longer > 0 { least + 1 } else { least }
}

/// Puts the values, in `count` lists, into an empty list.
fn split_into(
    alloc: Global,
    lists: &mut Items,
    values: &[Value],
    count: usize,
) -> Result<(), CallError>
    requires none { lists.old ≡ [] }
    requires some { 0 < count }
    requires short { length values.now ≤ max_items }
    requires fits { list_fits (map val_of values.now) ≡ true }
    ensures { Settles (λ u. vlist (vals_of lists.new)) result
        (list_answer (list_list (parted count (map val_of values.now)))) }
{
    let least = values.len() / count;
    let mut longer = values.len() % count;
    let mut left = count;
    let mut rest = values;
    while left > 0 {
        left -= 1;
        let (first, behind) = rest.split_at(first_length(least, longer));
        longer = longer.saturating_sub(1);
        push_list(alloc, lists, first)?;
        rest = behind;
    }
    Ok(())
}

/// A list in `count` lists.
fn parts(alloc: Global, values: &Items, count: i64) -> Result<Value, CallError>
    ensures { Settles val_of result (parts_answer values.now count) }
{
    if count < 1 {
        return Err(bad_arguments());
    }
    let count = count as usize;
    if count > MAX_ITEMS {
        return Err(too_long());
    }
    let mut lists = Items::new(alloc);
    split_into(alloc, &mut lists, values.as_slice(), count)?;
    Ok(Value::List(lists))
}

/// What `split_list` answers to its values.
pub(crate) fn split_list(alloc: Global, args: &[Value]) -> Result<Value, CallError>
    ensures { Settles val_of result (split_list_answer (map val_of args.now)) }
{
    let [items, count] = args else {
        return Err(bad_arguments());
    };
    let items = list_of(items, 0)?;
    let count = integer_of(count, 1)?;
    parts(alloc, items, count)
}
