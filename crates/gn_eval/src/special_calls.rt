// `defined` and `foreach`, which don't evaluate their first argument.

ghost use Rattle.std.specs.Prelude.{◌≡◌, ◌≤◌, map, option_map};
ghost use Rattle.gn_tree.specs.Depth.{max_tree_depth, call_depth, expr_depth, body_depth};
ghost use Rattle.gn_tree.specs.Views.{call_of, body_of};
ghost use Rattle.gn_values.specs.View.{val_of};
ghost use Rattle.gn_meaning.specs.Steps.{deeper, then_do};
ghost use Rattle.gn_meaning.specs.Words.{base_runs};
ghost use Rattle.gn_meaning.specs.Calls.{has_entry_runs, turns_run, loop_runs};
ghost use Rattle.gn_meaning.specs.Meaning.{world, expr_runs, body_runs, defined_runs, foreach_runs};
ghost use Rattle.gn_eval.specs.Ends.{Evaluates};

use crate::calls::run_block_of;
use crate::ending::{EvalEnd, lift};
use crate::expressions::eval_expr;
use crate::level::Level;
use crate::library::Library;
use gn_calls_scopes::Definer;
use gn_env::Env;
use gn_expressions::{has_element, has_entry, has_value, read_base};
use gn_faults::Code;
use gn_items::Outcome;
use gn_paths::Text;
use gn_steps::{refuse, wrong};
use gn_tree::{Block, Call, Expr, Position, SubExpr};
use gn_values::Value;
use std::alloc::Global;

/// `defined(name)`, `defined(base.entry)` and `defined(base[index])`. What stands inside its brackets nests as deep as
/// the level says.
#[cycle(eval)]
#[tactic(auto, unfolding(gn_meaning::specs::Meaning::defined_runs))]
pub(crate) fn run_defined<L: Library + Definer>(
    alloc: Global,
    level: Level,
    call: &Call,
    env: &mut Env,
    out: &mut Outcome,
    library: &mut L,
) -> Result<Option<Value>, EvalEnd>
    requires shallow { call_depth (call_of call.now) ≤ max_tree_depth }
    ensures { Evaluates (option_map val_of) (L.state library.old) (L.state library.new) result env.new out.new (λ a. defined_runs
        (world level.room a) level.nesting call.now.arguments call.now.position call.now.name env.old out.old) }
{
    let [argument] = call.arguments.as_slice() else {
        return Err(refuse(alloc, call, env).into());
    };
    match argument {
        Expr::Name { name, .. } => lift(has_value(name, env)),
        Expr::Entry {
            position,
            base,
            entry,
            ..
        } => {
            read_base(alloc, base, *position, env)?;
            lift(has_entry(alloc, base, entry, *position, env))
        }
        Expr::Item {
            position,
            base,
            index,
            ..
        } => has_item(alloc, level, base, *position, index, env, out, library),
        _ => Err(refuse(alloc, call, env).into()),
    }
}

// `defined(base[index])`, whose base stands at the position.
#[cycle(eval)]
fn has_item<L: Library + Definer>(
    alloc: Global,
    level: Level,
    base: &Text,
    position: Position,
    index: &SubExpr,
    env: &mut Env,
    out: &mut Outcome,
    library: &mut L,
) -> Result<Option<Value>, EvalEnd>
    requires shallow { expr_depth index.now ≤ max_tree_depth }
    ensures { Evaluates (option_map val_of) (L.state library.old) (L.state library.new) result env.new out.new (λ a. then_do (base_runs base.now position env.old out.old)
        (λ _ env1 out1. then_do (expr_runs (world level.room a) (deeper level.nesting 1) index.now env1 out1) (λ at env2 out2. has_entry_runs base.now at position env2 out2))) }
{
    read_base(alloc, base, position, env)?;
    let at = eval_expr(alloc, level.deeper(1), index.get(), env, out, library)?;
    lift(has_element(alloc, base, &at, position, env))
}

/// `foreach(name, list) { .. }`. What stands inside its brackets and its block nests as deep as the level says.
#[cycle(eval)]
#[tactic(auto, unfolding(gn_meaning::specs::Meaning::foreach_runs))]
pub(crate) fn run_foreach<L: Library + Definer>(
    alloc: Global,
    level: Level,
    call: &Call,
    env: &mut Env,
    out: &mut Outcome,
    library: &mut L,
) -> Result<Option<Value>, EvalEnd>
    requires shallow { call_depth (call_of call.now) ≤ max_tree_depth }
    ensures { Evaluates (option_map val_of) (L.state library.old) (L.state library.new) result env.new out.new (λ a. foreach_runs
        (world level.room a) level.nesting call.now.arguments call.now.position call.now.name (body_runs (world level.room a) level.nesting (body_of call.now.block)) env.old out.old) }
{
    let [variable, list] = call.arguments.as_slice() else {
        return Err(refuse(alloc, call, env).into());
    };
    let Expr::Name { name, .. } = variable else {
        return Err(refuse(alloc, call, env).into());
    };
    let value = eval_expr(alloc, level, list, env, out, library)?;
    run_loop(
        alloc,
        level,
        name,
        value,
        list.first_position(),
        &call.block,
        env,
        out,
        library,
    )
}

// The rounds of a `foreach` whose list stands at `at`. What the innermost scope has at the name is put aside, and comes
// back behind the last round.
#[cycle(eval)]
#[tactic(auto, unfolding(gn_meaning::specs::Calls::loop_runs))]
fn run_loop<L: Library + Definer>(
    alloc: Global,
    level: Level,
    name: &Text,
    list: Value,
    at: Position,
    block: &Option<Block>,
    env: &mut Env,
    out: &mut Outcome,
    library: &mut L,
) -> Result<Option<Value>, EvalEnd>
    requires shallow { body_depth (body_of block.now) ≤ max_tree_depth }
    ensures { Evaluates (option_map val_of) (L.state library.old) (L.state library.new) result env.new out.new (λ a. loop_runs name.now (val_of list) at
        (body_runs (world level.room a) level.nesting (body_of block.now)) env.old out.old) }
{
    match list {
        Value::List(items) => {
            let items = items.into_vec()?;
            let kept = env.put_aside(name);
            run_rounds(alloc, level, name, items, block, env, out, library)?;
            env.restore(alloc, name, kept)?;
            Ok(None)
        }
        _ => Err(wrong(alloc, env, Code::BadTypes, at).into()),
    }
}

// A round for each item: the name is given the item.
#[cycle(eval)]
fn run_rounds<L: Library + Definer>(
    alloc: Global,
    level: Level,
    name: &Text,
    items: Vec<Value>,
    block: &Option<Block>,
    env: &mut Env,
    out: &mut Outcome,
    library: &mut L,
) -> Result<(), EvalEnd>
    requires shallow { body_depth (body_of block.now) ≤ max_tree_depth }
    ensures { Evaluates (λ u. u) (L.state library.old) (L.state library.new) result env.new out.new (λ a. turns_run name.now
        (body_runs (world level.room a) level.nesting (body_of block.now)) (map val_of items.items) env.old out.old) }
{
    'rounds: for item in items {
        env.give(alloc, name, item)?;
        run_block_of(alloc, level, block, env, out, library)?;
    }
    Ok(())
}
