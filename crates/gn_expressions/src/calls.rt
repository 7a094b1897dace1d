// The value of a call inside an expression.

ghost use Rattle.std.specs.Prelude.{option_map};
ghost use Rattle.gn_items.specs.Effects.{Effects};
ghost use Rattle.gn_values.specs.View.{val_of};
ghost use Rattle.gn_meaning.specs.Calls.{call_value_runs};
ghost use Rattle.gn_steps.specs.Ends.{IsStep};

use gn_env::Env;
use gn_faults::Code;
use gn_steps::{StepEnd, wrong};
use gn_tree::Position;
use gn_values::Value;
use std::alloc::Global;

/// The value of a call inside an expression, whose name stands at the position. `Wrong` has `BadTypes` there where the
/// call has none.
#[tactic(auto, unfolding(gn_meaning::specs::Calls::call_value_runs))]
pub fn value_of_call(
    alloc: Global,
    value: Option<Value>,
    position: Position,
    env: &Env,
) -> Result<Value, StepEnd>
    ensures { (out : Effects) → IsStep val_of result env.now out (call_value_runs (option_map val_of value) position env.now out) }
{
    match value {
        Some(value) => Ok(value),
        None => Err(wrong(alloc, env, Code::BadTypes, position)),
    }
}
