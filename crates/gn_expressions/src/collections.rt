// Lists and scopes that are written out.

ghost use Rattle.std.specs.Prelude.{◌≡◌, ◌≢◌, ◌++◌, [], ◌∷◌, true, false, IfOk, IfErr, OnOk, map};
ghost use Rattle.gn_items.specs.Effects.{Effects};
ghost use Rattle.gn_values.specs.View.{val_of};
ghost use Rattle.gn_values.specs.Limits.{list_fits};
ghost use Rattle.gn_meaning.specs.Words.{list_runs, scope_runs};
ghost use Rattle.gn_steps.specs.Ends.{IsStep};

use gn_env::Env;
use gn_steps::{StepEnd, refused};
use gn_tree::Position;
use gn_values::{Items, Value, ValueError};
use std::alloc::{AllocError, Global};

/// The list of these values, whose bracket stands at the position. `Wrong` has `TooLong` there where a list may not have so
/// many items, or where it would nest too deep.
#[tactic(auto, unfolding(gn_meaning::specs::Words::list_runs))]
pub fn make_list(
    alloc: Global,
    values: Vec<Value>,
    position: Position,
    env: &Env,
) -> Result<Value, StepEnd>
    ensures { (out : Effects) → IsStep val_of result env.now out (list_runs (map val_of values.items) position env.now out) }
{
    match gathered(alloc, values) {
        Ok(items) => Ok(Value::List(items)),
        Err(error) => Err(refused(alloc, env, error, position)),
    }
}

// These values as the items of a list.
#[tactic(auto, using(gn_value_model::proofs::Within::list_over))]
fn gathered(alloc: Global, values: Vec<Value>) -> Result<Items, ValueError>
    ensures ok { IfOk result (λ items. (items ≡ map val_of values.items) × (list_fits (map val_of values.items) ≡ true)) }
    ensures err { IfErr result (λ e. e ≢ ValueError.Memory → (e ≡ ValueError.TooLong) × (list_fits (map val_of values.items) ≡ false)) }
{
    let mut items = Items::new(alloc);
    for value in values {
        items.push(value)?;
    }
    Ok(items)
}

/// The end of a scope literal whose brace stands at the position: its value is what was set in it, and its scope is left.
/// `Wrong` has `TooLong` there where the scope would nest too deep for a value.
#[tactic(auto, unfolding(gn_meaning::specs::Words::scope_runs, gn_environment::specs::Environment::left))]
pub fn end_scope(alloc: Global, position: Position, env: &mut Env) -> Result<Value, StepEnd>
    ensures runs { (out : Effects) → IsStep val_of result env.new out (scope_runs position env.old out) }
{
    match env.leave_with_entries(alloc) {
        Ok(entries) => Ok(Value::Scope(entries)),
        Err(error) => Err(refused(alloc, env, error, position)),
    }
}

/// One more value behind others; or want of memory.
pub fn add_value(values: &mut Vec<Value>, value: Value) -> Result<(), AllocError>
    ensures { OnOk result (map val_of values.new.items ≡ map val_of values.old.items ++ val_of value ∷ []) }
{
    values.push(value)?;
    Ok(())
}
