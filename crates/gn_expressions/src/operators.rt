// Operators, once their sides are evaluated.

ghost use Rattle.std.specs.Prelude.{◌≡◌, ◌≢◌, IfOk, IfErr};
ghost use Rattle.gn_items.specs.Effects.{Effects};
ghost use Rattle.gn_values.specs.View.{val_of};
ghost use Rattle.gn_values.specs.Operators.{sum_of, comparison_of};
ghost use Rattle.gn_values.specs.Equal.{equals};
ghost use Rattle.gn_meaning.specs.Words.{value_or_fault, boolean_result, negation_runs, boolean_runs, operated};
ghost use Rattle.gn_meaning.specs.Meaning.{truth_runs};
ghost use Rattle.gn_steps.specs.Ends.{IsStep};

use gn_env::Env;
use gn_faults::Code;
use gn_steps::{StepEnd, refused, wrong};
use gn_tree::{AssignOp, BinaryOp, Position};
use gn_values::{Compare, Value, ValueError, compare, subtract};
use std::alloc::Global;

/// `!operand`, whose operator stands at the position: the other boolean. `Wrong` has `BadTypes` there where the operand
/// is none.
#[tactic(auto, unfolding(gn_meaning::specs::Words::negation_runs))]
pub fn negate(
    alloc: Global,
    operand: &Value,
    position: Position,
    env: &Env,
) -> Result<Value, StepEnd>
    ensures { (out : Effects) → IsStep val_of result env.now out (negation_runs (val_of operand.now) position env.now out) }
{
    match operand {
        Value::Bool(truth) => Ok(Value::Bool(!*truth)),
        _ => Err(wrong(alloc, env, Code::BadTypes, position)),
    }
}

/// The right side of `&&` and `||`, whose operator stands at the position. `Wrong` has `BadTypes` there where the side
/// is no boolean.
#[tactic(auto, unfolding(gn_meaning::specs::Words::boolean_runs))]
pub fn boolean(alloc: Global, right: Value, position: Position, env: &Env) -> Result<Value, StepEnd>
    ensures { (out : Effects) → IsStep val_of result env.now out (boolean_runs (val_of right) position env.now out) }
{
    match right {
        Value::Bool(truth) => Ok(Value::Bool(truth)),
        _ => Err(wrong(alloc, env, Code::BadTypes, position)),
    }
}

fn compared(op: Compare, left: &Value, right: &Value) -> Result<Value, ValueError>
    ensures ok { IfOk result (λ v. boolean_result (comparison_of op (val_of left.now) (val_of right.now)) ≡ Ok (val_of v)) }
    ensures refused { IfErr result (λ e. boolean_result (comparison_of op (val_of left.now) (val_of right.now)) ≡ Err e) }
{
    Ok(Value::Bool(compare(op, left, right)?))
}

fn equal(left: &Value, right: &Value) -> bool
    ensures { result ≡ equals (val_of left.now) (val_of right.now) }
{
    left.same(right)
}

// `+`, which keeps what the left side has.
fn added(alloc: Global, mut left: Value, right: Value) -> Result<Value, ValueError>
    ensures ok { IfOk result (λ v. sum_of (val_of left) (val_of right) ≡ Ok (val_of v)) }
    ensures refused { IfErr result (λ e. e ≢ ValueError.Memory → sum_of (val_of left) (val_of right) ≡ Err e) }
{
    match left.combine(alloc, AssignOp::Add, right) {
        Ok(()) => Ok(left),
        Err(error) => Err(error),
    }
}

// Any other operator whose sides are both evaluated first.
#[tactic(auto, unfolding(gn_meaning::specs::Words::operated))]
fn operated_lent(
    alloc: Global,
    operator: BinaryOp,
    left: &Value,
    right: &Value,
) -> Result<Value, ValueError>
    requires { operator ≢ BinaryOp.Add }
    ensures ok { IfOk result (λ v. operated operator (val_of left.now) (val_of right.now) ≡ Ok (val_of v)) }
    ensures refused { IfErr result (λ e. e ≢ ValueError.Memory → operated operator (val_of left.now) (val_of right.now) ≡ Err e) }
{
    match operator {
        BinaryOp::Subtract => subtract(alloc, left, right),
        BinaryOp::Less => compared(Compare::Less, left, right),
        BinaryOp::LessEqual => compared(Compare::LessOrEqual, left, right),
        BinaryOp::Greater => compared(Compare::Greater, left, right),
        BinaryOp::GreaterEqual => compared(Compare::GreaterOrEqual, left, right),
        BinaryOp::Equal => Ok(Value::Bool(equal(left, right))),
        BinaryOp::NotEqual => Ok(Value::Bool(!equal(left, right))),
        BinaryOp::And | BinaryOp::Or | BinaryOp::Add => Err(ValueError::BadTypes),
    }
}

// An operator whose sides are both evaluated first.
#[tactic(auto, unfolding(gn_meaning::specs::Words::operated))]
fn operated(
    alloc: Global,
    operator: BinaryOp,
    left: Value,
    right: Value,
) -> Result<Value, ValueError>
    ensures ok { IfOk result (λ v. operated operator (val_of left) (val_of right) ≡ Ok (val_of v)) }
    ensures refused { IfErr result (λ e. e ≢ ValueError.Memory → operated operator (val_of left) (val_of right) ≡ Err e) }
{
    match operator {
        BinaryOp::Add => added(alloc, left, right),
        _ => operated_lent(alloc, operator, &left, &right),
    }
}

/// The value of an operator at the position whose sides are both evaluated. `Wrong` has what the operator refuses,
/// there: `BadTypes`, `Overflow`, `NotInList` or `TooLong`.
pub fn operate(
    alloc: Global,
    operator: BinaryOp,
    left: Value,
    right: Value,
    position: Position,
    env: &Env,
) -> Result<Value, StepEnd>
    ensures { (out : Effects) → IsStep val_of result env.now out (value_or_fault (operated operator (val_of left) (val_of right)) position env.now out) }
{
    match operated(alloc, operator, left, right) {
        Ok(value) => Ok(value),
        Err(error) => Err(refused(alloc, env, error, position)),
    }
}

/// Whether a condition holds, which stands at `at`. `Wrong` has `NotBoolean` there where it is no boolean.
#[tactic(auto, unfolding(gn_meaning::specs::Meaning::truth_runs))]
pub fn truth(alloc: Global, condition: &Value, at: Position, env: &Env) -> Result<bool, StepEnd>
    ensures { (out : Effects) → IsStep (λ b. b) result env.now out (truth_runs (val_of condition.now) at env.now out) }
{
    match condition {
        Value::Bool(holds) => Ok(*holds),
        _ => Err(wrong(alloc, env, Code::NotBoolean, at)),
    }
}
