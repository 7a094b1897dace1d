// Reading names and their elements. Inside a template's body the name of the invoker, unless a scope there has it,
// stands for the scope of the block of the call.

ghost use Rattle.std.specs.Prelude.{◌≡◌, ◌≢◌, Some, IfOk, IfErr, is_some, option_map};
ghost use Rattle.gn_items.specs.Effects.{Effects};
ghost use Rattle.gn_values.specs.Val.{vbool, vstr};
ghost use Rattle.gn_values.specs.View.{val_of};
ghost use Rattle.gn_values.specs.Operators.{element_of};
ghost use Rattle.gn_meaning.specs.Steps.{ends};
ghost use Rattle.gn_meaning.specs.Words.{invoker_runs, value_or_undefined, name_runs, base_runs, entry_or_undefined, invoker_element_runs, element_of_base, element_runs};
ghost use Rattle.gn_meaning.specs.Calls.{has_value_runs, has_entry_of, has_entry_runs};
ghost use Rattle.gn_environment.specs.Environment.{value_of};
ghost use Rattle.gn_environment.specs.Invoker.{invoker_entry, after_invoker_entry_read};
ghost use Rattle.gn_steps.specs.Ends.{IsStep};

use gn_env::Env;
use gn_faults::Code;
use gn_paths::Text;
use gn_steps::{StepEnd, refused, refused_element, wrong, wrong_with};
use gn_tree::Position;
use gn_values::{Value, ValueError, index};
use std::alloc::Global;

/// The invoker as a value; all its names count as read.
#[tactic(auto, unfolding(gn_meaning::specs::Words::invoker_runs))]
pub(crate) fn read_invoker(
    alloc: Global,
    position: Position,
    env: &mut Env,
) -> Result<Value, StepEnd>
    ensures runs { (out : Effects) → IsStep val_of result env.new out (invoker_runs position env.old out) }
{
    match env.invoker_value(alloc) {
        Ok(value) => {
            env.read_invoker();
            Ok(value)
        }
        Err(error) => Err(refused(alloc, env, error, position)),
    }
}

// The value that a name has, which counts as read.
#[tactic(auto, unfolding(gn_environment::specs::Environment::after_read))]
fn read_variable(
    alloc: Global,
    name: &Text,
    position: Position,
    env: &mut Env,
) -> Result<Value, StepEnd>
    ensures runs { (out : Effects) → IsStep val_of result env.new out (value_or_undefined (value_of name.now env.old) name.now position env.old out) }
{
    match env.look(name) {
        Some(value) => Ok(value.copy(alloc)?),
        None => Err(wrong_with(alloc, env, Code::Undefined, position, name)),
    }
}

/// The value of a name that stands at the position, which counts as read. The invoker is read as a value, so all its
/// names count as read. `Wrong` has `Undefined` at the name, or `TooLong` where the invoker nests too deep for a
/// scope's value.
#[tactic(auto, unfolding(gn_meaning::specs::Words::name_runs))]
pub fn read_name(
    alloc: Global,
    name: &Text,
    position: Position,
    env: &mut Env,
) -> Result<Value, StepEnd>
    ensures runs { (out : Effects) → IsStep val_of result env.new out (name_runs name.now position env.old out) }
{
    if env.is_invoker(name) {
        read_invoker(alloc, position, env)
    } else {
        read_variable(alloc, name, position, env)
    }
}

/// A name at the position that has to have a value, which counts as read. The invoker has one, and this is no read of
/// it. `Wrong` has `Undefined` at the name.
#[tactic(auto, unfolding(gn_meaning::specs::Words::base_runs, gn_environment::specs::Environment::after_read))]
pub fn read_base(
    alloc: Global,
    base: &Text,
    position: Position,
    env: &mut Env,
) -> Result<(), StepEnd>
    ensures runs { (out : Effects) → IsStep (λ u. u) result env.new out (base_runs base.now position env.old out) }
{
    if env.is_invoker(base) {
        return Ok(());
    }
    match env.look(base) {
        Some(_) => Ok(()),
        None => Err(wrong_with(alloc, env, Code::Undefined, position, base)),
    }
}

// What the invoker has at a name, which alone counts as read.
fn read_invoker_entry(
    alloc: Global,
    name: &Text,
    position: Position,
    env: &mut Env,
) -> Result<Value, StepEnd>
    ensures runs { (out : Effects) → IsStep val_of result env.new out (entry_or_undefined (invoker_entry name.now env.old) name.now position env.old out) }
{
    match env.invoker_entry(name) {
        Some(value) => {
            let value = value.copy(alloc)?;
            env.read_invoker_entry(name);
            Ok(value)
        }
        None => Err(wrong_with(alloc, env, Code::Undefined, position, name)),
    }
}

/// `invoker[at]`
#[tactic(auto, unfolding(gn_meaning::specs::Words::invoker_element_runs))]
pub(crate) fn read_invoker_element(
    alloc: Global,
    at: &Value,
    position: Position,
    env: &mut Env,
) -> Result<Value, StepEnd>
    ensures runs { (out : Effects) → IsStep val_of result env.new out (invoker_element_runs (val_of at.now) position env.old out) }
{
    match at {
        Value::Str(name) => read_invoker_entry(alloc, name, position, env),
        _ => Err(wrong(alloc, env, Code::BadTypes, position)),
    }
}

// A copy of an element.
fn element(alloc: Global, base: &Value, at: &Value) -> Result<Value, ValueError>
    ensures ok { IfOk result (λ v. element_of (val_of base.now) (val_of at.now) ≡ Ok (val_of v)) }
    ensures refused { IfErr result (λ e. e ≢ ValueError.Memory → element_of (val_of base.now) (val_of at.now) ≡ Err e) }
{
    let element = index(base, at)?;
    Ok(element.copy(alloc)?)
}

// The element of a variable's value: it alone is copied.
#[tactic(auto, unfolding(gn_environment::specs::Environment::after_read))]
fn read_variable_element(
    alloc: Global,
    base: &Text,
    base_position: Position,
    at: &Value,
    position: Position,
    env: &mut Env,
) -> Result<Value, StepEnd>
    ensures runs { (out : Effects) → IsStep val_of result env.new out (element_of_base (value_of base.now env.old) base.now base_position (val_of at.now) position env.old out) }
{
    match env.look(base) {
        Some(value) => match element(alloc, value, at) {
            Ok(element) => Ok(element),
            Err(error) => Err(refused_element(alloc, env, error, at, position)),
        },
        None => Err(wrong_with(alloc, env, Code::Undefined, base_position, base)),
    }
}

/// `base[at]` and `base.at`, once the subscript is evaluated: the element alone is copied, and the base counts as read,
/// of the invoker just the name that is looked up. `Wrong` has `Undefined` at the base where that has no value, and at
/// the subscript's position what finds no element: `BadTypes`, `BadIndex`, or `Undefined` with the name of the entry.
#[tactic(auto, unfolding(gn_meaning::specs::Words::element_runs))]
pub fn read_element(
    alloc: Global,
    base: &Text,
    base_position: Position,
    at: &Value,
    position: Position,
    env: &mut Env,
) -> Result<Value, StepEnd>
    ensures runs { (out : Effects) → IsStep val_of result env.new out (element_runs base.now base_position (val_of at.now) position env.old out) }
{
    if env.is_invoker(base) {
        read_invoker_element(alloc, at, position, env)
    } else {
        read_variable_element(alloc, base, base_position, at, position, env)
    }
}

// The entry of a variable's value.
#[tactic(auto, unfolding(gn_environment::specs::Environment::after_read, gn_values::specs::Operators::element_of))]
fn read_variable_entry(
    alloc: Global,
    base: &Text,
    base_position: Position,
    entry: &Text,
    position: Position,
    env: &mut Env,
) -> Result<Value, StepEnd>
    ensures runs { (out : Effects) → IsStep val_of result env.new out (element_of_base (value_of base.now env.old) base.now base_position (vstr entry.now) position env.old out) }
{
    match env.look(base) {
        Some(Value::Scope(entries)) => match entries.get(entry.as_bytes()) {
            Some(value) => Ok(value.copy(alloc)?),
            None => Err(wrong_with(alloc, env, Code::Undefined, position, entry)),
        },
        Some(_) => Err(wrong(alloc, env, Code::BadTypes, position)),
        None => Err(wrong_with(alloc, env, Code::Undefined, base_position, base)),
    }
}

/// `base.entry`: the entry alone is copied, and the base counts as read, of the invoker just the entry. `Wrong` has
/// `Undefined` at the base where that has no value, and at the dot `BadTypes` where it is no scope, or `Undefined` with
/// the name of the entry where it has no such one.
#[tactic(auto, unfolding(gn_meaning::specs::Words::element_runs, gn_meaning::specs::Words::invoker_element_runs))]
pub fn read_entry(
    alloc: Global,
    base: &Text,
    base_position: Position,
    entry: &Text,
    position: Position,
    env: &mut Env,
) -> Result<Value, StepEnd>
    ensures runs { (out : Effects) → IsStep val_of result env.new out (element_runs base.now base_position (vstr entry.now) position env.old out) }
{
    if env.is_invoker(base) {
        read_invoker_entry(alloc, entry, position, env)
    } else {
        read_variable_entry(alloc, base, base_position, entry, position, env)
    }
}

/// `defined(name)`: whether the name has a value, which counts as read; the invoker has one, and none of its names counts as
/// read by this. It always has an answer, a boolean.
#[tactic(auto, unfolding(gn_meaning::specs::Calls::has_value_runs))]
pub fn has_value(name: &Text, env: &mut Env) -> Result<Option<Value>, StepEnd>
    ensures runs { (out : Effects) → IsStep (option_map val_of) result env.new out (has_value_runs name.now env.old out) }
{
    if env.is_invoker(name) {
        return Ok(Some(Value::Bool(true)));
    }
    let found = env.look(name).is_some();
    Ok(Some(Value::Bool(found)))
}

// `defined(invoker.entry)`: this name alone counts as read.
fn invoker_has_entry(entry: &Text, env: &mut Env) -> Result<Option<Value>, StepEnd>
    ensures runs { (out : Effects) → IsStep (option_map val_of) result env.new out (ends (Some (vbool (is_some (invoker_entry entry.now env.old))))
        (after_invoker_entry_read entry.now env.old) out) }
{
    let found = env.invoker_entry(entry).is_some();
    env.read_invoker_entry(entry);
    Ok(Some(Value::Bool(found)))
}

// The same of a variable's value, which has to be a scope.
#[tactic(auto, unfolding(gn_environment::specs::Environment::after_read))]
fn variable_has_entry(
    alloc: Global,
    base: &Text,
    entry: &Text,
    position: Position,
    env: &mut Env,
) -> Result<Option<Value>, StepEnd>
    ensures runs { (out : Effects) → IsStep (option_map val_of) result env.new out (has_entry_of (value_of base.now env.old) base.now (vstr entry.now) position env.old out) }
{
    match env.look(base) {
        Some(Value::Scope(entries)) => {
            let found = entries.get(entry.as_bytes()).is_some();
            Ok(Some(Value::Bool(found)))
        }
        Some(_) => Err(wrong(alloc, env, Code::BadTypes, position)),
        None => Err(wrong_with(alloc, env, Code::Undefined, position, base)),
    }
}

/// `defined(base.entry)`: whether the scope has the entry, as a boolean; the base counts as read, of the invoker just
/// the entry. `Wrong` has, at the base, `Undefined` where it has no value, or `BadTypes` where it is no scope.
#[tactic(auto, unfolding(gn_meaning::specs::Calls::has_entry_runs))]
pub fn has_entry(
    alloc: Global,
    base: &Text,
    entry: &Text,
    position: Position,
    env: &mut Env,
) -> Result<Option<Value>, StepEnd>
    ensures runs { (out : Effects) → IsStep (option_map val_of) result env.new out (has_entry_runs base.now (vstr entry.now) position env.old out) }
{
    if env.is_invoker(base) {
        invoker_has_entry(entry, env)
    } else {
        variable_has_entry(alloc, base, entry, position, env)
    }
}

/// `defined(base[at])`, once the subscript is evaluated: whether the scope has the entry, as a boolean; the base counts
/// as read, of the invoker just the entry. `Wrong` has, at the base, `Undefined` where it has no value, or `BadTypes`
/// where it is no scope or the subscript is no string.
#[tactic(auto, unfolding(gn_meaning::specs::Calls::has_entry_runs, gn_environment::specs::Environment::after_read))]
pub fn has_element(
    alloc: Global,
    base: &Text,
    at: &Value,
    position: Position,
    env: &mut Env,
) -> Result<Option<Value>, StepEnd>
    ensures runs { (out : Effects) → IsStep (option_map val_of) result env.new out (has_entry_runs base.now (val_of at.now) position env.old out) }
{
    if let Value::Str(entry) = at {
        return has_entry(alloc, base, entry, position, env);
    }
    if env.is_invoker(base) || env.look(base).is_some() {
        return Err(wrong(alloc, env, Code::BadTypes, position));
    }
    Err(wrong_with(alloc, env, Code::Undefined, position, base))
}
