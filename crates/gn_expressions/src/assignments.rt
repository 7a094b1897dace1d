// Assignments, once their sides are evaluated.

ghost use Rattle.std.specs.Prelude.{◌≡◌, Result, Err, IfSome};
ghost use Rattle.gn_items.specs.Effects.{Effects};
ghost use Rattle.gn_values.specs.View.{val_of};
ghost use Rattle.gn_environment.specs.Environment.{Environment, after_assignment, after_assignment_over, after_element_assignment_over};
ghost use Rattle.gn_meaning.specs.Words.{changes_value, over_invoker, assigned_to, element_assigned_to, invoker_replaced_runs, name_assigned_runs, variable_element_assigned_runs, invoker_element_assigned_runs, element_assigned_runs};
ghost use Rattle.gn_environment.specs.Assigning.{Refusal, ElementRefusal};
ghost use Rattle.gn_layers.specs.Errors.{refusal_of, element_refusal_of};
ghost use Rattle.gn_steps.specs.Ends.{IsStepFailure, IsStep};

use gn_env::Env;
use gn_faults::Code;
use gn_layers::{AssignError, ElementAssignError};
use gn_paths::Text;
use gn_steps::{StepEnd, refused, refused_element, wrong_with};
use gn_tree::{AssignOp, Position};
use gn_values::Value;
use std::alloc::Global;

// The end of an evaluation in which an assignment to a name isn't made.
#[tactic(auto, unfolding(gn_meaning::specs::Words::assigned_to))]
fn not_assigned(
    alloc: Global,
    env: &Env,
    error: AssignError,
    name: &Text,
    at: Position,
    position: Position,
) -> StepEnd
    ensures { (after : Result Environment Refusal) (out : Effects) → IfSome (refusal_of error) (λ r. after ≡ Err r) →
        IsStepFailure result out (assigned_to after name.now at position env.now out) }
{
    match error {
        AssignError::Overwrite => wrong_with(alloc, env, Code::Overwrite, position, name),
        AssignError::Undefined => wrong_with(alloc, env, Code::Undefined, at, name),
        AssignError::Value(error) => refused(alloc, env, error, position),
        AssignError::Memory => StepEnd::Memory,
    }
}

#[tactic(auto, unfolding(gn_meaning::specs::Words::assigned_to))]
fn assign_variable(
    alloc: Global,
    name: &Text,
    at: Position,
    operator: AssignOp,
    position: Position,
    value: Value,
    env: &mut Env,
) -> Result<(), StepEnd>
    ensures runs { (out : Effects) → IsStep (λ u. u) result env.new out (assigned_to
        (after_assignment name.now operator (val_of value) position env.old) name.now at position env.old out) }
{
    match env.assign(alloc, name, operator, value, position) {
        Ok(()) => Ok(()),
        Err(error) => Err(not_assigned(alloc, env, error, name, at, position)),
    }
}

#[tactic(auto, unfolding(gn_meaning::specs::Words::assigned_to))]
fn assign_over(
    alloc: Global,
    old: &Value,
    name: &Text,
    at: Position,
    operator: AssignOp,
    position: Position,
    value: Value,
    env: &mut Env,
) -> Result<(), StepEnd>
    ensures runs { (out : Effects) → IsStep (λ u. u) result env.new out (assigned_to
        (after_assignment_over (val_of old.now) name.now operator (val_of value) position env.old) name.now at position env.old out) }
{
    match env.assign_over(alloc, old, name, operator, value, position) {
        Ok(()) => Ok(()),
        Err(error) => Err(not_assigned(alloc, env, error, name, at, position)),
    }
}

// `+=` and `-=` on the invoker, named at `at`, which is read as a value.
fn assign_over_invoker(
    alloc: Global,
    name: &Text,
    at: Position,
    operator: AssignOp,
    position: Position,
    value: Value,
    env: &mut Env,
) -> Result<(), StepEnd>
    ensures runs { (out : Effects) → IsStep (λ u. u) result env.new out (over_invoker position
        (λ old env1. assigned_to (after_assignment_over old name.now operator (val_of value) position env1) name.now at position env1 out) env.old out) }
{
    match env.invoker_value(alloc) {
        Ok(old) => {
            env.read_invoker();
            assign_over(alloc, &old, name, at, operator, position, value, env)
        }
        Err(error) => Err(refused(alloc, env, error, position)),
    }
}

fn changes_value(operator: AssignOp) -> bool
    ensures { result ≡ changes_value operator }
{
    match operator {
        AssignOp::Set => false,
        AssignOp::Add | AssignOp::Subtract => true,
    }
}

// `=` in the scope in which the invoker stands, which has been read: a scope that isn't empty takes the place of none.
#[tactic(auto, unfolding(gn_meaning::specs::Words::invoker_replaced_runs))]
fn replace_invoker(
    alloc: Global,
    name: &Text,
    position: Position,
    value: Value,
    env: &mut Env,
) -> Result<(), StepEnd>
    ensures runs { (out : Effects) → IsStep (λ u. u) result env.new out (invoker_replaced_runs name.now position (val_of value) env.old out) }
{
    if env.replaces_invoker(alloc, &value)? {
        return Err(wrong_with(alloc, env, Code::Overwrite, position, name));
    }
    Ok(env.give(alloc, name, value)?)
}

/// `name = value`, `name += value` or `name -= value`, whose name stands at `at` and whose operator at the position.
/// `+=` and `-=` on the invoker read it as a value. `=` on it in the body's own scope is that of a name that was read.
/// `Wrong` has `Overwrite` at the operator where `=` would replace a nonempty list or scope by another, `Undefined` at
/// the name where `+=` and `-=` find no value, what the operator refuses at the operator, or `TooLong` there where the
/// invoker nests too deep for a scope's value.
#[tactic(auto, unfolding(gn_meaning::specs::Words::name_assigned_runs))]
pub fn assign_name(
    alloc: Global,
    name: &Text,
    at: Position,
    operator: AssignOp,
    position: Position,
    value: Value,
    env: &mut Env,
) -> Result<(), StepEnd>
    ensures runs { (out : Effects) → IsStep (λ u. u) result env.new out (name_assigned_runs name.now at operator position (val_of value) env.old out) }
{
    let over = changes_value(operator) && env.is_invoker(name);
    if over {
        assign_over_invoker(alloc, name, at, operator, position, value, env)
    } else if env.is_invoker_here(name) {
        replace_invoker(alloc, name, position, value, env)
    } else {
        assign_variable(alloc, name, at, operator, position, value, env)
    }
}

// The end of an evaluation in which an assignment to an element isn't made.
#[tactic(auto, unfolding(gn_meaning::specs::Words::element_assigned_to))]
fn element_not_assigned(
    alloc: Global,
    env: &Env,
    error: ElementAssignError,
    base: &Text,
    base_position: Position,
    at: &Value,
    subscript: Position,
    position: Position,
) -> StepEnd
    ensures { (after : Result Environment ElementRefusal) (out : Effects) → IfSome (element_refusal_of error) (λ r. after ≡ Err r) →
        IsStepFailure result out (element_assigned_to after base.now base_position (val_of at.now) subscript position env.now out) }
{
    match error {
        ElementAssignError::Undefined => {
            wrong_with(alloc, env, Code::Undefined, base_position, base)
        }
        ElementAssignError::Subscript(error) => refused_element(alloc, env, error, at, subscript),
        ElementAssignError::Operator(error) => refused(alloc, env, error, position),
        ElementAssignError::Memory => StepEnd::Memory,
    }
}

#[tactic(auto, unfolding(gn_meaning::specs::Words::element_assigned_to, gn_meaning::specs::Words::variable_element_assigned_runs))]
fn assign_variable_element(
    alloc: Global,
    base: &Text,
    base_position: Position,
    at: &Value,
    subscript: Position,
    operator: AssignOp,
    position: Position,
    value: Value,
    env: &mut Env,
) -> Result<(), StepEnd>
    ensures runs { (out : Effects) → IsStep (λ u. u) result env.new out (variable_element_assigned_runs base.now base_position (val_of at.now) subscript operator position
        (val_of value) env.old out) }
{
    match env.assign_element(alloc, base, at, operator, value, position) {
        Ok(()) => Ok(()),
        Err(error) => Err(element_not_assigned(
            alloc,
            env,
            error,
            base,
            base_position,
            at,
            subscript,
            position,
        )),
    }
}

#[tactic(auto, unfolding(gn_meaning::specs::Words::element_assigned_to))]
fn assign_element_over(
    alloc: Global,
    old: &Value,
    base: &Text,
    base_position: Position,
    at: &Value,
    subscript: Position,
    operator: AssignOp,
    position: Position,
    value: Value,
    env: &mut Env,
) -> Result<(), StepEnd>
    ensures runs { (out : Effects) → IsStep (λ u. u) result env.new out (element_assigned_to
        (after_element_assignment_over (val_of old.now) base.now (val_of at.now) operator (val_of value) position env.old) base.now base_position (val_of at.now) subscript position env.old out) }
{
    match env.assign_element_over(alloc, old, base, at, operator, value, position) {
        Ok(()) => Ok(()),
        Err(error) => Err(element_not_assigned(
            alloc,
            env,
            error,
            base,
            base_position,
            at,
            subscript,
            position,
        )),
    }
}

// The same of an element of the invoker, which has this value: in the scope in which it stands it becomes a variable that
// was read, and further in it is copied inwards.
#[tactic(auto, unfolding(gn_meaning::specs::Words::invoker_element_assigned_runs))]
fn assign_element_of_invoker(
    alloc: Global,
    old: Value,
    base: &Text,
    base_position: Position,
    at: &Value,
    subscript: Position,
    operator: AssignOp,
    position: Position,
    value: Value,
    env: &mut Env,
) -> Result<(), StepEnd>
    ensures runs { (out : Effects) → IsStep (λ u. u) result env.new out (invoker_element_assigned_runs (val_of old) base.now base_position
        (val_of at.now) subscript operator position (val_of value) env.old out) }
{
    if !env.is_invoker_here(base) {
        return assign_element_over(
            alloc,
            &old,
            base,
            base_position,
            at,
            subscript,
            operator,
            position,
            value,
            env,
        );
    }
    env.give(alloc, base, old)?;
    assign_variable_element(
        alloc,
        base,
        base_position,
        at,
        subscript,
        operator,
        position,
        value,
        env,
    )
}

// The same of an element of the invoker, which is named at `base_position` and read as a value.
fn assign_element_over_invoker(
    alloc: Global,
    base: &Text,
    base_position: Position,
    at: &Value,
    subscript: Position,
    operator: AssignOp,
    position: Position,
    value: Value,
    env: &mut Env,
) -> Result<(), StepEnd>
    ensures runs { (out : Effects) → IsStep (λ u. u) result env.new out (over_invoker position
        (λ old env1. invoker_element_assigned_runs old base.now base_position (val_of at.now) subscript operator position (val_of value) env1 out) env.old out) }
{
    match env.invoker_value(alloc) {
        Ok(old) => {
            env.read_invoker();
            assign_element_of_invoker(
                alloc,
                old,
                base,
                base_position,
                at,
                subscript,
                operator,
                position,
                value,
                env,
            )
        }
        Err(error) => Err(refused(alloc, env, error, position)),
    }
}

/// `base[at] = value`, `base.at = value` and their kin, whose operator stands at the position. The invoker is read as a
/// value, and a variable of its name is set, which in the body's own scope counts as read. `Wrong` has `Undefined` at
/// the base where that has no value, what the subscript doesn't find at the subscript, what the operator refuses at the
/// operator, or `TooLong` there where the invoker nests too deep for a scope's value.
#[tactic(auto, unfolding(gn_meaning::specs::Words::element_assigned_runs))]
pub fn assign_element(
    alloc: Global,
    base: &Text,
    base_position: Position,
    at: &Value,
    subscript: Position,
    operator: AssignOp,
    position: Position,
    value: Value,
    env: &mut Env,
) -> Result<(), StepEnd>
    ensures runs { (out : Effects) → IsStep (λ u. u) result env.new out (element_assigned_runs base.now base_position (val_of at.now) subscript operator position
        (val_of value) env.old out) }
{
    if env.is_invoker(base) {
        assign_element_over_invoker(
            alloc,
            base,
            base_position,
            at,
            subscript,
            operator,
            position,
            value,
            env,
        )
    } else {
        assign_variable_element(
            alloc,
            base,
            base_position,
            at,
            subscript,
            operator,
            position,
            value,
            env,
        )
    }
}
