// Calls that open a scope, in which their block runs: of templates, of items, `target`, `set_defaults` and `declare_args`.

ghost use Rattle.std.specs.Prelude.{◌≡◌, map, option_map};
ghost use Rattle.gn_items.specs.Effects.{Effects};
ghost use Rattle.gn_values.specs.View.{val_of};
ghost use Rattle.gn_environment.specs.Templates.{template_of};
ghost use Rattle.gn_environment.specs.Declaring.{declaring_entered};
ghost use Rattle.gn_meaning.specs.Steps.{ends};
ghost use Rattle.gn_meaning.specs.OpeningCalls.{of_function, opened_arguments, template_begun_runs, item_begun_runs, template_named_runs, item_named_runs, target_kind_runs, target_of_runs, target_runs, defaults_begun_runs, begun_runs, closed_runs};
ghost use Rattle.gn_functions.specs.Functions.{target_kind_of};
ghost use Rattle.gn_steps.specs.Ends.{IsStep};
ghost use Rattle.gn_calls_scopes.specs.Openings.{opener_view, opened_view};

use crate::declaring::end_arguments;
use crate::definer::Definer;
use crate::items::{allows, begin_item, begin_scope, end_item};
use crate::templates::{end_defaults, end_template, open_call};
use gn_definitions::Definition;
use gn_env::Env;
use gn_faults::Code;
use gn_functions::{Opening, target_kind};
use gn_items::{ItemKind, Outcome};
use gn_paths::Text;
use gn_steps::{StepEnd, argument_position, refuse, wrong, wrong_with};
use gn_tree::{Call, Position};
use gn_values::Value;
use std::alloc::Global;
use std::sync::Arc;

/// Which call opens a scope.
#[derive(Drop)]
pub enum Opener {
    /// That of a template, before which the evaluation was so deep.
    Template(Arc<Definition>, usize),
    /// That of a function.
    Function(Opening),
}

/// What is open while the block of a call runs.
#[derive(Drop)]
pub enum Opened {
    /// An item of this kind and name.
    Item {
        kind: ItemKind,
        name: Text,
    },
    /// The call of a template.
    Template {
        /// The template.
        definition: Arc<Definition>,
        /// The name that the call gives.
        name: Text,
        /// How deep the evaluation was before the call.
        depth: usize,
    },
    /// The defaults of calls of a kind.
    Defaults {
        kind: Text,
    },
    /// Declared arguments.
    Arguments,
}

// The call of a template, which gives this name.
#[tactic(auto, unfolding(gn_meaning::specs::OpeningCalls::template_begun_runs))]
fn begin_template(
    alloc: Global,
    definition: Arc<Definition>,
    depth: usize,
    kind_name: &Text,
    name: &Text,
    position: Position,
    env: &mut Env,
) -> Result<Opened, StepEnd>
    ensures runs { (out : Effects) → IsStep opened_view result env.new out (template_begun_runs definition.value depth kind_name.now name.now position env.old out) }
{
    begin_scope(alloc, kind_name, name, position, env)?;
    let name = name.copy(alloc)?;
    Ok(Opened::Template {
        definition,
        name,
        depth,
    })
}

// The definition of an item of this kind, which has this name.
#[tactic(auto, unfolding(gn_meaning::specs::OpeningCalls::item_begun_runs))]
fn begin_item_of(
    alloc: Global,
    kind: ItemKind,
    kind_name: &Text,
    name: &Text,
    position: Position,
    env: &mut Env,
) -> Result<Opened, StepEnd>
    ensures runs { (out : Effects) → IsStep opened_view result env.new out (item_begun_runs kind kind_name.now name.now position env.old out) }
{
    begin_item(alloc, kind, kind_name, name, position, env)?;
    let name = name.copy(alloc)?;
    Ok(Opened::Item { kind, name })
}

// `target`, where no template has the name of its kind.
fn begin_target_kind(
    alloc: Global,
    kind_name: &Text,
    name: &Text,
    call: &Call,
    env: &mut Env,
) -> Result<Opened, StepEnd>
    ensures runs { (out : Effects) → IsStep opened_view result env.new out (target_kind_runs (target_kind_of kind_name.now) kind_name.now name.now call.now env.old out) }
{
    let refusal = match target_kind(kind_name.as_bytes()) {
        Some(kind) if allows(kind, env) => {
            return begin_item_of(alloc, kind, kind_name, name, call.position, env);
        }
        Some(_) => wrong_with(alloc, env, Code::NotAllowedHere, call.position, kind_name),
        None => refuse(alloc, call, env),
    };
    Err(refusal)
}

// `target`: the call of the template of that name, or else of that kind of target.
fn begin_target_of(
    alloc: Global,
    kind_name: &Text,
    name: &Text,
    nesting: u32,
    call: &Call,
    env: &mut Env,
) -> Result<Opened, StepEnd>
    ensures runs { (out : Effects) → IsStep opened_view result env.new out (target_of_runs
        (template_of kind_name.now env.old) nesting kind_name.now name.now call.now env.old out) }
{
    let Some(definition) = env.template(kind_name)? else {
        return begin_target_kind(alloc, kind_name, name, call, env);
    };
    let depth = env.depth();
    open_call(alloc, nesting, call.position, env)?;
    begin_template(
        alloc,
        definition,
        depth,
        kind_name,
        name,
        call.position,
        env,
    )
}

// `target`
#[tactic(auto, unfolding(gn_meaning::specs::OpeningCalls::target_runs))]
fn begin_target(
    alloc: Global,
    kind: &Value,
    name: &Value,
    nesting: u32,
    call: &Call,
    env: &mut Env,
) -> Result<Opened, StepEnd>
    ensures runs { (out : Effects) → IsStep opened_view result env.new out (target_runs (val_of kind.now) (val_of name.now) nesting call.now env.old out) }
{
    let Value::Str(kind) = kind else {
        return Err(wrong(alloc, env, Code::BadTypes, argument_position(call, 0)));
    };
    let Value::Str(name) = name else {
        return Err(wrong(alloc, env, Code::BadTypes, argument_position(call, 1)));
    };
    begin_target_of(alloc, kind, name, nesting, call, env)
}

// The call of a template with its one value.
fn begin_named_template(
    alloc: Global,
    definition: Arc<Definition>,
    depth: usize,
    name: &Value,
    call: &Call,
    env: &mut Env,
) -> Result<Opened, StepEnd>
    ensures runs { (out : Effects) → IsStep opened_view result env.new out (template_named_runs definition.value depth (val_of name.now) call.now env.old out) }
{
    match name {
        Value::Str(name) => begin_template(
            alloc,
            definition,
            depth,
            &call.name,
            name,
            call.position,
            env,
        ),
        _ => Err(wrong(alloc, env, Code::BadTypes, argument_position(call, 0))),
    }
}

// The definition of an item with its one value.
fn begin_named_item(
    alloc: Global,
    kind: ItemKind,
    name: &Value,
    call: &Call,
    env: &mut Env,
) -> Result<Opened, StepEnd>
    ensures runs { (out : Effects) → IsStep opened_view result env.new out (item_named_runs kind (val_of name.now) call.now env.old out) }
{
    match name {
        Value::Str(name) => begin_item_of(alloc, kind, &call.name, name, call.position, env),
        _ => Err(wrong(alloc, env, Code::BadTypes, argument_position(call, 0))),
    }
}

// `set_defaults` with its one value.
fn begin_defaults(
    alloc: Global,
    kind: &Value,
    call: &Call,
    env: &mut Env,
) -> Result<Opened, StepEnd>
    ensures runs { (out : Effects) → IsStep opened_view result env.new out (defaults_begun_runs (val_of kind.now) call.now env.old out) }
{
    let Value::Str(kind) = kind else {
        return Err(wrong(alloc, env, Code::BadTypes, argument_position(call, 0)));
    };
    env.enter(false)?;
    let kind = kind.copy(alloc)?;
    Ok(Opened::Defaults { kind })
}

// `declare_args`
fn begin_arguments(env: &mut Env) -> Result<Opened, StepEnd>
    ensures runs { (out : Effects) → IsStep opened_view result env.new out (ends opened_arguments (declaring_entered env.old) out) }
{
    env.enter_declaring()?;
    Ok(Opened::Arguments)
}

/// Opens the scope in which the block of the call runs, with the values of its arguments; its name nests so deep in its file.
/// `Wrong` has `BadTypes` at the argument of a wrong type; then, at the call of `target`, `Nesting` of the template that it
/// calls, or `NotAllowedHere` or `BadArguments` of the kind that it names; then `AlreadySet` at the call with the
/// first default that is set already; and `BadArguments` at the call for another number of values than it takes.
#[tactic(auto, unfolding(gn_meaning::specs::OpeningCalls::begun_runs))]
pub fn begin_call(
    alloc: Global,
    opener: Opener,
    values: &[Value],
    nesting: u32,
    call: &Call,
    env: &mut Env,
) -> Result<Opened, StepEnd>
    ensures runs { (out : Effects) → IsStep opened_view result env.new out (begun_runs (opener_view opener) (map val_of values.now) nesting call.now env.old out) }
{
    match opener {
        Opener::Template(definition, depth) => match values {
            [name] => begin_named_template(alloc, definition, depth, name, call, env),
            _ => Err(refuse(alloc, call, env)),
        },
        Opener::Function(opening) => begin_function(alloc, opening, values, nesting, call, env),
    }
}

// The same of a function.
#[tactic(auto, unfolding(gn_meaning::specs::OpeningCalls::begun_runs))]
fn begin_function(
    alloc: Global,
    opening: Opening,
    values: &[Value],
    nesting: u32,
    call: &Call,
    env: &mut Env,
) -> Result<Opened, StepEnd>
    ensures runs { (out : Effects) → IsStep opened_view result env.new out (begun_runs (of_function opening) (map val_of values.now) nesting call.now env.old out) }
{
    match opening {
        Opening::Item(kind) => match values {
            [name] => begin_named_item(alloc, kind, name, call, env),
            _ => Err(refuse(alloc, call, env)),
        },
        Opening::Target => match values {
            [kind, name] => begin_target(alloc, kind, name, nesting, call, env),
            _ => Err(refuse(alloc, call, env)),
        },
        Opening::SetDefaults => match values {
            [kind] => begin_defaults(alloc, kind, call, env),
            _ => Err(refuse(alloc, call, env)),
        },
        Opening::DeclareArguments => match values {
            [] => begin_arguments(env),
            _ => Err(refuse(alloc, call, env)),
        },
    }
}

/// Closes what is open, whose call stands at the position. An item is defined, its label has to be new, and its names have to
/// be read; behind a template's body the names of the call's block and those of the body have to be read; the variables
/// of the block of `set_defaults` are the defaults of its kind, and those of `declare_args`, which must not be set around the
/// block, are set there. `Wrong` has the first of these that isn't so.
#[tactic(auto, unfolding(gn_meaning::specs::OpeningCalls::closed_runs))]
pub fn end_call<D: Definer>(
    alloc: Global,
    opened: Opened,
    position: Position,
    env: &mut Env,
    out: &mut Outcome,
    definer: &mut D,
) -> Result<Option<Value>, StepEnd>
    ensures runs { IsStep (option_map val_of) result env.new out.new (closed_runs (opened_view opened) position env.old out.old) }
    ensures same { definer.new ≡ definer.old }
{
    match opened {
        Opened::Item { kind, name } => end_item(alloc, kind, &name, position, env, out, definer),
        Opened::Template { depth, .. } => end_template(alloc, depth, env),
        Opened::Defaults { kind } => end_defaults(alloc, &kind, env),
        Opened::Arguments => end_arguments(alloc, position, env, out),
    }
}
