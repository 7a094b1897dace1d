// `forward_variables_from` and `not_needed`, once their arguments are evaluated.

ghost use Rattle.std.specs.Prelude.{◌≡◌, ℕ, List, [], ◌∷◌, Option, IfOk, map, option_map};
ghost use Rattle.gn_items.specs.Effects.{Effects};
ghost use Rattle.gn_values.specs.Val.{Val};
ghost use Rattle.gn_values.specs.View.{val_of};
ghost use Rattle.gn_env.specs.Origins.{origin_of};
ghost use Rattle.gn_environment.specs.Faults.{fault_in};
ghost use Rattle.gn_meaning.specs.Steps.{Steps};
ghost use Rattle.gn_meaning.specs.ChangingCalls.{source_and_rest, forwarding_runs, unneeded_runs};
ghost use Rattle.gn_meaning.specs.Selections.{strings_of, selection_of, excepted_runs, selected_runs, names_forwarded_runs, outer_invoker_runs, outer_invoker_forwarded_runs, invoker_forwarded_runs, listed_forwarded_runs, origin_forwarded_runs, forwarded_runs, unneeded_here_runs, unneeded_at_invoker_runs, unneeded_in_value_runs, unneeded_one_runs, unneeded_two_runs, unneeded_three_runs};
ghost use Rattle.gn_steps.specs.Ends.{IsStep};
ghost use Rattle.gn_calls_scopes.specs.Selected.{all_texts, source_view, selection_view, IsExcepted, IsSelected, IsForwardRefusal};

use gn_env::{Env, ForwardError, Origin};
use gn_faults::Code;
use gn_paths::{Text, Texts};
use gn_steps::{StepEnd, argument_position, refuse, refused, wrong, wrong_with};
use gn_tree::{Call, Position};
use gn_values::Value;
use std::alloc::{AllocError, Global};

/// A first argument of `forward_variables_from` or `not_needed`, which may be the invoker itself.
#[derive(Clone, Copy)]
pub(crate) enum FirstArgument<'v> {
    /// The invoker.
    Invoker,
    /// A value.
    Value(&'v Value),
}

/// Which names an argument selects.
#[derive(Drop)]
pub(crate) enum Selection {
    /// All of them: `"*"`.
    Every,
    /// Those of a list of strings.
    Listed(Texts),
    /// None: another string.
    OtherText,
    /// None: any other value.
    Nothing,
}

/// The names that are selected, and those that are excepted.
#[derive(Drop)]
pub(crate) enum Selected {
    /// All names but these.
    Every(Texts),
    /// Names, and the names that are excepted.
    Listed(Texts, Texts),
}

/// Copies of the strings of a list, if it is one of strings alone.
#[tactic(auto, unfolding(gn_meaning::specs::Selections::strings_of))]
pub(crate) fn strings(alloc: Global, value: &Value) -> Result<Option<Texts>, AllocError>
    ensures { IfOk result (λ found. found ≡ strings_of (val_of value.now)) }
{
    match value {
        Value::List(items) => texts_in(alloc, items.as_slice()),
        _ => Ok(None),
    }
}

// Copies of these strings, if all are strings.
fn texts_in(alloc: Global, values: &[Value]) -> Result<Option<Texts>, AllocError>
    ensures { IfOk result (λ found. found ≡ all_texts (map val_of values.now)) }
{
    let mut texts = Texts::new(alloc);
    for value in values {
        let Value::Str(text) = value else {
            return Ok(None);
        };
        texts.push(text.copy(alloc)?)?;
    }
    Ok(Some(texts))
}

/// Which names a value selects.
#[tactic(auto, unfolding(gn_meaning::specs::Selections::selection_of))]
pub(crate) fn selection_of(alloc: Global, value: &Value) -> Result<Selection, AllocError>
    ensures { IfOk result (λ s. selection_view s ≡ selection_of (val_of value.now)) }
{
    match value {
        Value::Str(text) if text.as_bytes() == b"*".as_slice() => Ok(Selection::Every),
        Value::Str(_) => Ok(Selection::OtherText),
        _ => match strings(alloc, value)? {
            Some(names) => Ok(Selection::Listed(names)),
            None => Ok(Selection::Nothing),
        },
    }
}

// The excepted names: none without a last argument, else those of that list of strings, which stands at the position.
fn excepted(alloc: Global, last: Option<(&Value, Position)>, env: &Env) -> Result<Texts, StepEnd>
    ensures { (next : List (List ℕ) → Steps (Option Val)) (out : Effects) →
        IsExcepted result next env.now out (excepted_runs (option_map (λ p. (val_of p.0.now, p.1)) last.entry) next env.now out) }
{
    let Some((names, at)) = last else {
        return Ok(Texts::new(alloc));
    };
    match strings(alloc, names)? {
        Some(names) => Ok(names),
        None => Err(wrong(alloc, env, Code::BadTypes, at)),
    }
}

// What is selected and what is excepted, of names that stand at `at`, in a call of this name at the position.
fn select(
    alloc: Global,
    names: &Value,
    last: Option<(&Value, Position)>,
    at: Position,
    position: Position,
    name: &Text,
    env: &Env,
) -> Result<Selected, StepEnd>
    ensures { (all : List (List ℕ) → Steps (Option Val)) (some : List (List ℕ) → List (List ℕ) → Steps (Option Val)) (out : Effects) →
        IsSelected result all some env.now out (selected_runs (selection_of (val_of names.now)) (option_map (λ p. (val_of p.0.now, p.1)) last.entry) at position name.now all some env.now out) }
{
    match selection_of(alloc, names)? {
        Selection::Every => Ok(Selected::Every(excepted(alloc, last, env)?)),
        Selection::Listed(names) => Ok(Selected::Listed(names, excepted(alloc, last, env)?)),
        Selection::OtherText => {
            excepted(alloc, last, env)?;
            Err(wrong_with(alloc, env, Code::BadArguments, position, name))
        }
        Selection::Nothing => Err(wrong(alloc, env, Code::BadTypes, at)),
    }
}

// The end of an evaluation in which names aren't forwarded.
fn not_forwarded(alloc: Global, error: ForwardError, position: Position, env: &Env) -> StepEnd
    ensures { IsForwardRefusal error result (λ name. fault_in env.now.setting position Code.AlreadySet (name ∷ [])) }
{
    match error {
        ForwardError::AlreadySet(name) => {
            wrong_with(alloc, env, Code::AlreadySet, position, &name)
        }
        ForwardError::Memory => StepEnd::Memory,
    }
}

// Forwards these names, but for the excepted ones.
fn forward_names(
    alloc: Global,
    origin: Origin<'_>,
    names: &Texts,
    except: &Texts,
    position: Position,
    env: &mut Env,
) -> Result<Option<Value>, StepEnd>
    ensures { (out : Effects) → IsStep (option_map val_of) result env.new out (names_forwarded_runs (origin_of origin.entry) names.now except.now position env.old out) }
{
    match env.bring_names(alloc, origin, names, except, position) {
        Ok(()) => Ok(None),
        Err(error) => Err(not_forwarded(alloc, error, position, env)),
    }
}

// The invoker around the call as a value; all its names count as read.
#[tactic(auto, unfolding(gn_meaning::specs::Selections::outer_invoker_runs))]
fn read_outer_invoker(alloc: Global, position: Position, env: &mut Env) -> Result<Value, StepEnd>
    ensures { (out : Effects) → IsStep val_of result env.new out (outer_invoker_runs position env.old out) }
{
    match env.outer_invoker_value(alloc) {
        Ok(value) => {
            env.read_outer_invoker();
            Ok(value)
        }
        Err(error) => Err(refused(alloc, env, error, position)),
    }
}

// Forwards names of the invoker, where the invoker around the call is one of them.
fn forward_with_outer_invoker(
    alloc: Global,
    names: &Texts,
    except: &Texts,
    position: Position,
    env: &mut Env,
) -> Result<Option<Value>, StepEnd>
    ensures { (out : Effects) → IsStep (option_map val_of) result env.new out (outer_invoker_forwarded_runs names.now except.now position env.old out) }
{
    let outer = read_outer_invoker(alloc, position, env)?;
    let origin = Origin::Invoker(Some(&outer));
    forward_names(alloc, origin, names, except, position, env)
}

// Forwards names of the invoker.
fn forward_from_invoker(
    alloc: Global,
    names: &Texts,
    except: &Texts,
    position: Position,
    env: &mut Env,
) -> Result<Option<Value>, StepEnd>
    ensures { (out : Effects) → IsStep (option_map val_of) result env.new out (invoker_forwarded_runs names.now except.now position env.old out) }
{
    if env.forwards_outer_invoker(names, except) {
        forward_with_outer_invoker(alloc, names, except, position, env)
    } else {
        forward_names(alloc, Origin::Invoker(None), names, except, position, env)
    }
}

// Forwards names of a list.
fn forward_listed(
    alloc: Global,
    origin: Origin<'_>,
    names: &Texts,
    except: &Texts,
    position: Position,
    env: &mut Env,
) -> Result<Option<Value>, StepEnd>
    ensures { (out : Effects) → IsStep (option_map val_of) result env.new out (listed_forwarded_runs (origin_of origin.entry) names.now except.now position env.old out) }
{
    match origin {
        Origin::Entries(_) => forward_names(alloc, origin, names, except, position, env),
        Origin::Invoker(_) => forward_from_invoker(alloc, names, except, position, env),
    }
}

// Forwards the names that are selected.
fn forward_selected(
    alloc: Global,
    origin: Origin<'_>,
    names: &Value,
    last: Option<(&Value, Position)>,
    at: Position,
    position: Position,
    name: &Text,
    env: &mut Env,
) -> Result<Option<Value>, StepEnd>
    ensures { (out : Effects) → IsStep (option_map val_of) result env.new out (origin_forwarded_runs (origin_of origin.entry) (val_of names.now)
        (option_map (λ p. (val_of p.0.now, p.1)) last.entry) at position name.now env.old out) }
{
    match select(alloc, names, last, at, position, name, env)? {
        Selected::Every(except) => {
            env.bring_all(alloc, origin, &except, position)?;
            Ok(None)
        }
        Selected::Listed(names, except) => {
            forward_listed(alloc, origin, &names, &except, position, env)
        }
    }
}

// `forward_variables_from` of this name at the position: the source stands at `source_at`, the names at `at`, and the
// excepted names, if there are any, at their position. What is forwarded stands in the innermost scope then. `Wrong` has
// `BadTypes` at the argument of a wrong type, `BadArguments` at the call where a string selects no names, `TooLong` there
// where the invoker around the call is listed and nests too deep, or `AlreadySet` there with the first listed name that is
// set there.
#[tactic(auto, unfolding(gn_meaning::specs::Selections::forwarded_runs))]
fn forward(
    alloc: Global,
    source: FirstArgument<'_>,
    names: &Value,
    last: Option<(&Value, Position)>,
    source_at: Position,
    at: Position,
    position: Position,
    name: &Text,
    env: &mut Env,
) -> Result<Option<Value>, StepEnd>
    ensures { (out : Effects) → IsStep (option_map val_of) result env.new out (forwarded_runs (source_view source.entry) (val_of names.now)
        (option_map (λ p. (val_of p.0.now, p.1)) last.entry) source_at at position name.now env.old out) }
{
    match source {
        FirstArgument::Invoker => {
            let origin = Origin::Invoker(None);
            forward_selected(alloc, origin, names, last, at, position, name, env)
        }
        FirstArgument::Value(Value::Scope(entries)) => {
            let origin = Origin::Entries(entries);
            forward_selected(alloc, origin, names, last, at, position, name, env)
        }
        FirstArgument::Value(_) => Err(wrong(alloc, env, Code::BadTypes, source_at)),
    }
}

// The names of the innermost scope that are selected count as read.
fn not_needed_here(
    alloc: Global,
    names: &Value,
    last: Option<(&Value, Position)>,
    at: Position,
    position: Position,
    name: &Text,
    env: &mut Env,
) -> Result<Option<Value>, StepEnd>
    ensures { (out : Effects) → IsStep (option_map val_of) result env.new out (unneeded_here_runs (val_of names.now)
        (option_map (λ p. (val_of p.0.now, p.1)) last.entry) at position name.now env.old out) }
{
    match select(alloc, names, last, at, position, name, env)? {
        Selected::Every(except) => env.read_all_here(alloc, &except)?,
        Selected::Listed(names, except) => env.read_names_here(alloc, &names, &except)?,
    }
    Ok(None)
}

// The names of the invoker that are selected count as read.
fn not_needed_at_invoker(
    alloc: Global,
    names: &Value,
    last: Option<(&Value, Position)>,
    at: Position,
    position: Position,
    name: &Text,
    env: &mut Env,
) -> Result<Option<Value>, StepEnd>
    ensures { (out : Effects) → IsStep (option_map val_of) result env.new out (unneeded_at_invoker_runs (val_of names.now)
        (option_map (λ p. (val_of p.0.now, p.1)) last.entry) at position name.now env.old out) }
{
    match select(alloc, names, last, at, position, name, env)? {
        Selected::Every(except) => env.read_invoker_but(alloc, &except)?,
        Selected::Listed(names, except) => env.read_invoker_names(alloc, &names, &except)?,
    }
    Ok(None)
}

// Names of a scope that is a value: it has no unread names, so the selection is only judged.
fn not_needed_in_value(
    alloc: Global,
    names: &Value,
    last: Option<(&Value, Position)>,
    at: Position,
    position: Position,
    name: &Text,
    env: &Env,
) -> Result<Option<Value>, StepEnd>
    ensures { (out : Effects) → IsStep (option_map val_of) result env.now out (unneeded_in_value_runs (val_of names.now)
        (option_map (λ p. (val_of p.0.now, p.1)) last.entry) at position name.now env.now out) }
{
    select(alloc, names, last, at, position, name, env)?;
    Ok(None)
}

// `not_needed(names)`, whose argument stands at `at`: the names of the innermost scope that are selected count as read.
// `Wrong` has `BadArguments` at the call where the argument is a scope or another string than `"*"`, or `BadTypes` at the
// argument where it has any other wrong type.
#[tactic(auto, unfolding(gn_meaning::specs::Selections::unneeded_one_runs))]
fn not_needed_of_one(
    alloc: Global,
    source: FirstArgument<'_>,
    at: Position,
    position: Position,
    name: &Text,
    env: &mut Env,
) -> Result<Option<Value>, StepEnd>
    ensures { (out : Effects) → IsStep (option_map val_of) result env.new out (unneeded_one_runs (source_view source.entry) at position name.now env.old out) }
{
    match source {
        FirstArgument::Invoker | FirstArgument::Value(Value::Scope(_)) => {
            Err(wrong_with(alloc, env, Code::BadArguments, position, name))
        }
        FirstArgument::Value(names) => not_needed_here(alloc, names, None, at, position, name, env),
    }
}

// `not_needed(scope, names)` or `not_needed(names, excepted)`, whose arguments stand at `first_at` and `at`: the type of
// the first one decides which it is. Of a scope that is a value the selection is only judged. `Wrong` has `BadTypes` at the
// argument of a wrong type, or `BadArguments` at the call where a string selects no names.
#[tactic(auto, unfolding(gn_meaning::specs::Selections::unneeded_two_runs))]
fn not_needed_of_two(
    alloc: Global,
    source: FirstArgument<'_>,
    second: &Value,
    first_at: Position,
    at: Position,
    position: Position,
    name: &Text,
    env: &mut Env,
) -> Result<Option<Value>, StepEnd>
    ensures { (out : Effects) → IsStep (option_map val_of) result env.new out (unneeded_two_runs (source_view source.entry)
        (val_of second.now) first_at at position name.now env.old out) }
{
    match source {
        FirstArgument::Invoker => not_needed_at_invoker(
            alloc, second, None, at, position, name, env,
        ),
        FirstArgument::Value(Value::Scope(_)) => {
            not_needed_in_value(alloc, second, None, at, position, name, env)
        }
        FirstArgument::Value(names) => {
            let last = Some((second, at));
            not_needed_here(alloc, names, last, first_at, position, name, env)
        }
    }
}

// `not_needed(scope, names, excepted)`, whose arguments stand at `first_at`, `at` and `last_at`. `Wrong` has `BadTypes` at
// the argument of a wrong type, or `BadArguments` at the call where a string selects no names.
#[tactic(auto, unfolding(gn_meaning::specs::Selections::unneeded_three_runs))]
fn not_needed_of_three(
    alloc: Global,
    source: FirstArgument<'_>,
    names: &Value,
    last: &Value,
    first_at: Position,
    at: Position,
    last_at: Position,
    position: Position,
    name: &Text,
    env: &mut Env,
) -> Result<Option<Value>, StepEnd>
    ensures { (out : Effects) → IsStep (option_map val_of) result env.new out (unneeded_three_runs (source_view source.entry) (val_of names.now)
        (val_of last.now) first_at at last_at position name.now env.old out) }
{
    let last = Some((last, last_at));
    match source {
        FirstArgument::Invoker => not_needed_at_invoker(
            alloc, names, last, at, position, name, env,
        ),
        FirstArgument::Value(Value::Scope(_)) => {
            not_needed_in_value(alloc, names, last, at, position, name, env)
        }
        FirstArgument::Value(_) => Err(wrong(alloc, env, Code::BadTypes, first_at)),
    }
}

// The invoker or the first value, and the values behind it.
fn source_and_rest(invoker: bool, values: &[Value]) -> Option<(FirstArgument<'_>, &[Value])>
    ensures { option_map (λ p. (source_view p.0, map val_of p.1.now)) result ≡ source_and_rest invoker (map val_of values.now) }
{
    if invoker {
        return Some((FirstArgument::Invoker, values));
    }
    match values {
        [first, rest @ ..] => Some((FirstArgument::Value(first), rest)),
        _ => None,
    }
}

/// `forward_variables_from` with the values of its arguments, of which the first may be the invoker itself: what is forwarded
/// stands in the innermost scope then. `Wrong` has `BadTypes` at the argument of a wrong type, `BadArguments` at the call where
/// a string selects no names or for another number of values, `TooLong` there where the invoker around the call is listed and
/// nests too deep for a scope's value, or `AlreadySet` there with the first listed name that is set in that scope.
#[tactic(auto, unfolding(gn_meaning::specs::ChangingCalls::forwarding_runs))]
pub fn forward_variables(
    alloc: Global,
    invoker: bool,
    values: &[Value],
    call: &Call,
    env: &mut Env,
) -> Result<Option<Value>, StepEnd>
    ensures { (out : Effects) → IsStep (option_map val_of) result env.new out (forwarding_runs (source_and_rest invoker (map val_of values.now)) call.now env.old out) }
{
    let Some((source, rest)) = source_and_rest(invoker, values) else {
        return Err(refuse(alloc, call, env));
    };
    let (names, last) = match rest {
        [names] => (names, None),
        [names, except] => (names, Some((except, argument_position(call, 2)))),
        _ => return Err(refuse(alloc, call, env)),
    };
    forward(
        alloc,
        source,
        names,
        last,
        argument_position(call, 0),
        argument_position(call, 1),
        call.position,
        &call.name,
        env,
    )
}

/// `not_needed` with the values of its arguments, of which the first may be the invoker itself: the names that are selected
/// count as read. Of a scope that is a value the selection is only judged. `Wrong` has `BadTypes` at the argument of a wrong
/// type, or `BadArguments` at the call where a string selects no names, where the one argument is a scope, or for another
/// number of values.
#[tactic(auto, unfolding(gn_meaning::specs::ChangingCalls::unneeded_runs))]
pub fn mark_not_needed(
    alloc: Global,
    invoker: bool,
    values: &[Value],
    call: &Call,
    env: &mut Env,
) -> Result<Option<Value>, StepEnd>
    ensures { (out : Effects) → IsStep (option_map val_of) result env.new out (unneeded_runs (source_and_rest invoker (map val_of values.now)) call.now env.old out) }
{
    let Some((source, rest)) = source_and_rest(invoker, values) else {
        return Err(refuse(alloc, call, env));
    };
    let first_at = argument_position(call, 0);
    let at = argument_position(call, 1);
    match rest {
        [] => not_needed_of_one(alloc, source, first_at, call.position, &call.name, env),
        [second] => not_needed_of_two(
            alloc,
            source,
            second,
            first_at,
            at,
            call.position,
            &call.name,
            env,
        ),
        [names, last] => not_needed_of_three(
            alloc,
            source,
            names,
            last,
            first_at,
            at,
            argument_position(call, 2),
            call.position,
            &call.name,
            env,
        ),
        _ => Err(refuse(alloc, call, env)),
    }
}
