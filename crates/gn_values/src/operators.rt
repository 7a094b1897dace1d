// The operators on values.

ghost use Rattle.std.specs.Prelude.{◌≡◌, ◌≢◌, MatchResult, IfOk, IfErr};
ghost use Rattle.gn_values.specs.Operators.{comparison_of, sum_of, difference_of, element_of};
ghost use Rattle.gn_values.specs.View.{val_of};

use crate::comparison::Compare;
use crate::error::ValueError;
use crate::integers;
use crate::value::Value;
use std::alloc::Global;

/// Whether two integers stand so to each other. Values of other types are `BadTypes`. It takes no
/// memory.
#[tactic(auto, unfolding(crate::specs::Operators::comparison_of))]
pub fn compare(op: Compare, left: &Value, right: &Value) -> Result<bool, ValueError>
    ensures { result ≡ comparison_of op (val_of left.now) (val_of right.now) }
{
    match (left, right) {
        (Value::Int(a), Value::Int(b)) => Ok(op.holds(*a, *b)),
        _ => Err(ValueError::BadTypes),
    }
}

/// An item of a list, counted from 0, or the value of a name of a scope. `BadIndex` comes for a
/// number that the list has no item of, `Undefined` for a name that the scope has no entry of, and
/// `BadTypes` for a base or an index of another type. It takes no memory.
#[tactic(auto, unfolding(crate::specs::Operators::element_of))]
pub fn index<'a>(base: &'a Value, at: &Value) -> Result<&'a Value, ValueError>
    ensures { MatchResult result
        (λ v. element_of (val_of base.now) (val_of at.now) ≡ Ok (val_of v.now))
        (λ e. element_of (val_of base.now) (val_of at.now) ≡ Err e) }
{
    match (base, at) {
        (Value::List(items), Value::Int(n)) => items.at(*n),
        (Value::Scope(entries), Value::Str(name)) => match entries.get(name.as_bytes()) {
            Some(value) => Ok(value),
            None => Err(ValueError::Undefined),
        },
        _ => Err(ValueError::BadTypes),
    }
}

/// The difference of integers, or the items of a list that equal no item of the right list.
/// `Overflow` comes for a difference outside signed 64 bits, `NotInList` where an item of the right
/// list equals no item of the left list, and `BadTypes` for values of other types. For lists of n
/// and m items, all of them strings or integers, it takes about (n + m) log (n + m) comparisons.
/// `Items::without` says what other items cost.
#[tactic(auto, unfolding(crate::specs::Operators::difference_of))]
pub fn subtract(alloc: Global, left: &Value, right: &Value) -> Result<Value, ValueError>
    ensures ok { IfOk result
        (λ v. difference_of (val_of left.now) (val_of right.now) ≡ Ok (val_of v)) }
    ensures refused { IfErr result
        (λ e. e ≢ ValueError.Memory
        → difference_of (val_of left.now) (val_of right.now) ≡ Err e) }
{
    match (left, right) {
        (Value::Int(a), Value::Int(b)) => Ok(Value::Int(integers::difference(*a, *b)?)),
        (Value::List(a), Value::List(b)) => match a.without(alloc, b) {
            Ok(kept) => Ok(Value::List(kept)),
            Err(error) => Err(error),
        },
        _ => Err(ValueError::BadTypes),
    }
}

/// The sum of integers, strings joined, a string and an integer in decimal joined as text, or the
/// items of two lists. `Overflow` comes for a sum outside signed 64 bits, `TooLong` for a string or
/// a list above the limits, and `BadTypes` for values of other types.
pub fn add(alloc: Global, left: &Value, right: &Value) -> Result<Value, ValueError>
    ensures ok { IfOk result
        (λ v. sum_of (val_of left.now) (val_of right.now) ≡ Ok (val_of v)) }
    ensures refused { IfErr result
        (λ e. e ≢ ValueError.Memory → sum_of (val_of left.now) (val_of right.now) ≡ Err e) }
{
    let mut sum = left.copy(alloc)?;
    sum.add_assign(alloc, right)?;
    Ok(sum)
}
