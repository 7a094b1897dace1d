// Templates and defaults, once the arguments of their calls are evaluated.

ghost use Rattle.std.specs.Prelude.{◌≡◌, ◌≤◌, [], true, false, nat_lt, OnOk, IfErr, map, option_map};
ghost use Rattle.gn_items.specs.Effects.{Effects};
ghost use Rattle.gn_tree.specs.Depth.{max_tree_depth, call_depth, IsShallow};
ghost use Rattle.gn_tree.specs.Views.{call_of};
ghost use Rattle.gn_values.specs.View.{val_of};
ghost use Rattle.gn_environment.specs.Templates.{at_depth};
ghost use Rattle.gn_environment.specs.Faults.{fault_in};
ghost use Rattle.gn_meaning.specs.Steps.{max_evaluation_depth};
ghost use Rattle.gn_meaning.specs.Templates.{opened_depth, template_defined_runs, template_end_runs, defaults_end_runs};
ghost use Rattle.gn_meaning.specs.ChangingCalls.{defining_runs};
ghost use Rattle.gn_steps.specs.Ends.{IsFault, IsStep};

use gn_env::Env;
use gn_faults::Code;
use gn_paths::Text;
use gn_steps::{StepEnd, argument_position, no_effect, no_effect_in, refuse, wrong, wrong_with};
use gn_tree::{Block, Call, Position};
use gn_values::Value;
use std::alloc::Global;

// The greatest depth of an evaluation.
const MAX_DEPTH: usize = 400;

// `template(name) { .. }`, whose name stands at `at`: the innermost scope has the template then, and the block, which nests
// so deep in its file, isn't run.
#[tactic(auto, unfolding(gn_meaning::specs::Templates::template_defined_runs))]
fn define_named(
    alloc: Global,
    name: &Value,
    at: Position,
    position: Position,
    nesting: u32,
    block: &Block,
    env: &mut Env,
) -> Result<Option<Value>, StepEnd>
    requires { IsShallow block.now }
    ensures { (out : Effects) → IsStep (option_map val_of) result env.new out (template_defined_runs (val_of name.now) at position nesting block.now env.old out) }
{
    let Value::Str(name) = name else {
        return Err(wrong(alloc, env, Code::BadTypes, at));
    };
    if env.has_template(name) {
        return Err(wrong_with(alloc, env, Code::AlreadySet, position, name));
    }
    env.define_template(alloc, name, position, nesting, block.share()?)?;
    Ok(None)
}

/// `template(name) { .. }` with the values of its arguments: the innermost scope has the template then, and the block, which
/// nests so deep in its file, isn't run. `Wrong` has `BadTypes` at the name where it is no string, or `AlreadySet` at the call
/// where a template of that name is in scope; `BadArguments` at the call for another number of values, or without a block.
#[tactic(auto, unfolding(gn_meaning::specs::ChangingCalls::defining_runs))]
pub fn define_template(
    alloc: Global,
    values: &[Value],
    call: &Call,
    nesting: u32,
    env: &mut Env,
) -> Result<Option<Value>, StepEnd>
    requires shallow { call_depth (call_of call.now) ≤ max_tree_depth }
    ensures { (out : Effects) → IsStep (option_map val_of) result env.new out (defining_runs (map val_of values.now) call.now.block call.now nesting env.old out) }
{
    let Some(block) = &call.block else {
        return Err(refuse(alloc, call, env));
    };
    match values {
        [name] => define_named(
            alloc,
            name,
            argument_position(call, 0),
            call.position,
            nesting,
            block,
            env,
        ),
        _ => Err(refuse(alloc, call, env)),
    }
}

/// Opens the call of a template whose name nests so deep, which makes the evaluation deeper. `Wrong` has `Nesting` at the
/// call exactly where it would be deeper than an evaluation may be.
pub(crate) fn open_call(
    alloc: Global,
    nesting: u32,
    position: Position,
    env: &mut Env,
) -> Result<(), StepEnd>
    ensures fits { OnOk result (nat_lt max_evaluation_depth (opened_depth nesting env.old) ≡ false) }
    ensures new { OnOk result (env.new ≡ at_depth (opened_depth nesting env.old) env.old) }
    ensures refused { IfErr result (λ e. (nat_lt max_evaluation_depth (opened_depth nesting env.old) ≡ true) × IsFault e (fault_in env.old.setting position Code.Nesting [])) }
{
    let depth = env
        .depth()
        .saturating_add(nesting as usize)
        .saturating_add(1);
    if depth > MAX_DEPTH {
        return Err(wrong(alloc, env, Code::Nesting, position));
    }
    env.set_depth(depth);
    Ok(())
}

/// The end of a template's body: the names of the block of its call have to be read, then those of the body. Then the
/// scopes around the call are open again, and the evaluation is so deep. `Wrong` has `NoEffect` at the last assignment
/// of the first such name.
#[tactic(auto, unfolding(gn_meaning::specs::Templates::template_end_runs))]
pub(crate) fn end_template(
    alloc: Global,
    depth: usize,
    env: &mut Env,
) -> Result<Option<Value>, StepEnd>
    ensures { (out : Effects) → IsStep (option_map val_of) result env.new out (template_end_runs depth env.old out) }
{
    if let Some((file, unread, at)) = env.invoker_unread() {
        return Err(no_effect_in(alloc, env, file, at, unread));
    }
    if let Some((unread, at)) = env.unread() {
        return Err(no_effect(alloc, env, at, unread));
    }
    env.end_body();
    env.set_depth(depth);
    Ok(None)
}

/// The end of the block of `set_defaults`: its variables are the defaults of this kind of call in the scope around it. It
/// ends without a value only for want of memory.
#[tactic(auto, unfolding(gn_meaning::specs::Templates::defaults_end_runs))]
pub(crate) fn end_defaults(
    alloc: Global,
    kind: &Text,
    env: &mut Env,
) -> Result<Option<Value>, StepEnd>
    ensures { (out : Effects) → IsStep (option_map val_of) result env.new out (defaults_end_runs kind.now env.old out) }
{
    env.set_defaults(alloc, kind)?;
    Ok(None)
}
