// Adding to a value in place.

ghost use Rattle.std.specs.Prelude.{◌≡◌, ◌≢◌, ◌++◌, IfOk, IfErr, OnOk, OnErr};
ghost use Rattle.std.specs.Fmt.{signed_decimal};
ghost use Rattle.gn_values.specs.Val.{vint, vstr, vlist, vals_of};
ghost use Rattle.gn_values.specs.Operators.{sum_of, text_value};
ghost use Rattle.gn_values.specs.View.{val_of};

use crate::error::ValueError;
use crate::integers;
use crate::limits::append_text;
use crate::value::{Items, Value};
use gn_paths::Text;
use gn_text::decimal;
use std::alloc::{AllocError, Global};

/// An integer in decimal, and a text behind it.
fn number_and_text(alloc: Global, number: i64, text: &Text) -> Result<Text, ValueError>
    ensures ok { IfOk result
        (λ t. text_value (signed_decimal number ++ text.now) ≡ Ok (vstr t)) }
    ensures refused { IfErr result
        (λ e. e ≢ ValueError.Memory
        → text_value (signed_decimal number ++ text.now) ≡ Err e) }
{
    let mut joined = Text::from_vec(decimal(alloc, number)?);
    append_text(&mut joined, text.as_bytes())?;
    Ok(joined)
}

/// Puts a string, or an integer in decimal, at the end of a text.
#[tactic(auto, unfolding(crate::specs::Operators::sum_of))]
fn add_to_text(alloc: Global, text: &mut Text, right: &Value) -> Result<(), ValueError>
    ensures ok { OnOk result (sum_of (vstr text.old) (val_of right.now) ≡ Ok (vstr text.new)) }
    ensures refused { IfErr result
        (λ e. e ≢ ValueError.Memory → sum_of (vstr text.old) (val_of right.now) ≡ Err e) }
    ensures err { OnErr result (text.new ≡ text.old) }
{
    match right {
        Value::Str(more) => append_text(text, more.as_bytes()),
        Value::Int(number) => {
            let digits = decimal(alloc, *number)?;
            append_text(text, digits.as_slice())
        }
        _ => Err(ValueError::BadTypes),
    }
}

/// Puts copies of the items of a list at the end of a list.
#[tactic(auto, unfolding(crate::specs::Operators::sum_of))]
fn add_to_list(items: &mut Items, right: &Value) -> Result<(), ValueError>
    ensures ok { OnOk result
        (sum_of (vlist (vals_of items.old)) (val_of right.now) ≡ Ok (vlist (vals_of items.new))) }
    ensures refused { IfErr result
        (λ e. e ≢ ValueError.Memory
        → sum_of (vlist (vals_of items.old)) (val_of right.now) ≡ Err e) }
    ensures err { OnErr result (items.new ≡ items.old) }
{
    match right {
        Value::List(more) => items.append(more),
        _ => Err(ValueError::BadTypes),
    }
}

/// The sum of an integer and an integer, or an integer in decimal and a string behind it.
#[tactic(auto, unfolding(crate::specs::Operators::sum_of))]
fn number_and(alloc: Global, number: i64, right: &Value) -> Result<Value, ValueError>
    ensures ok { IfOk result (λ v. sum_of (vint number) (val_of right.now) ≡ Ok (val_of v)) }
    ensures refused { IfErr result
        (λ e. e ≢ ValueError.Memory → sum_of (vint number) (val_of right.now) ≡ Err e) }
{
    match right {
        Value::Int(more) => Ok(Value::Int(integers::sum(number, *more)?)),
        Value::Str(text) => Ok(Value::Str(number_and_text(alloc, number, text)?)),
        _ => Err(ValueError::BadTypes),
    }
}

impl Value {
    /// Adds a value to this one in place, as `+` does: the parts that it has already aren't walked
    /// over or copied where nobody else has them. After a refusal it is as before.
    #[tactic(auto, unfolding(crate::specs::Operators::sum_of))]
    pub fn add_assign(&mut self, alloc: Global, right: &Value) -> Result<(), ValueError>
        ensures ok { OnOk result
            (sum_of (val_of self.old) (val_of right.now) ≡ Ok (val_of self.new)) }
        ensures refused { IfErr result
            (λ e. e ≢ ValueError.Memory
            → sum_of (val_of self.old) (val_of right.now) ≡ Err e) }
        ensures err { OnErr result (val_of self.new ≡ val_of self.old) }
    {
        match self {
            Value::Str(text) => add_to_text(alloc, text, right),
            Value::List(items) => add_to_list(items, right),
            Value::Int(number) => {
                *self = number_and(alloc, *number, right)?;
                Ok(())
            }
            _ => Err(ValueError::BadTypes),
        }
    }
}
