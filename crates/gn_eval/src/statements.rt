// Statements and blocks.

ghost use Rattle.std.specs.Prelude.{◌≡◌, ◌<◌, ◌≤◌, OnOk};
ghost use Rattle.gn_tree.specs.Depth.{max_tree_depth, target_depth, statement_depth, condition_depth, otherwise_depth, block_depth};
ghost use Rattle.gn_tree.specs.Views.{target_of, statement_of, condition_of, otherwise_of};
ghost use Rattle.gn_values.specs.Val.{vstr};
ghost use Rattle.gn_values.specs.View.{val_of};
ghost use Rattle.gn_items.specs.Effects.{Effects};
ghost use Rattle.gn_meaning.specs.Words.{element_assigned_runs};
ghost use Rattle.gn_meaning.specs.Meaning.{world, truth_runs, assignment_runs, statement_runs, condition_runs, otherwise_runs, block_runs};
ghost use Rattle.gn_steps.specs.Ends.{IsStep};
ghost use Rattle.gn_eval.specs.Ends.{Evaluates};

use crate::calls::run_call;
use crate::ending::{EvalEnd, lift};
use crate::expressions::eval_expr;
use crate::level::Level;
use crate::library::Library;
use gn_calls_scopes::Definer;
use gn_env::Env;
use gn_expressions::{assign_element, assign_name, truth};
use gn_items::Outcome;
use gn_paths::Text;
use gn_steps::StepEnd;
use gn_tree::{AssignOp, Block, Condition, Otherwise, Position, Statement, Target};
use gn_values::Value;
use std::alloc::Global;

/// The statements of a block, in order.
#[cycle(eval)]
#[tactic(auto, unfolding(gn_meaning::specs::Meaning::block_runs))]
pub(crate) fn run_statements<L: Library + Definer>(
    alloc: Global,
    level: Level,
    block: &Block,
    env: &mut Env,
    out: &mut Outcome,
    library: &mut L,
) -> Result<(), EvalEnd>
    requires shallow { block_depth block.now ≤ max_tree_depth }
    ensures { Evaluates (λ u. u) (L.state library.old) (L.state library.new) result env.new out.new (λ a. block_runs (world level.room a) level.nesting block.now env.old out.old) }
{
    for statement in block.statements() {
        run_statement(alloc, level, statement, env, out, library)?;
    }
    Ok(())
}

/// A statement.
#[cycle(eval)]
#[tactic(auto, unfolding(gn_meaning::specs::Meaning::statement_runs))]
pub(crate) fn run_statement<L: Library + Definer>(
    alloc: Global,
    level: Level,
    statement: &Statement,
    env: &mut Env,
    out: &mut Outcome,
    library: &mut L,
) -> Result<(), EvalEnd>
    requires shallow { statement_depth (statement_of statement.now) ≤ max_tree_depth }
    ensures { Evaluates (λ u. u) (L.state library.old) (L.state library.new) result env.new out.new (λ a. statement_runs (world level.room a) level.nesting
        (statement_of statement.now) env.old out.old) }
{
    match statement {
        Statement::Assignment {
            target,
            operator,
            position,
            value,
        } => {
            let value = eval_expr(alloc, level, value, env, out, library)?;
            assign(
                alloc, level, target, *operator, *position, value, env, out, library,
            )
        }
        Statement::Call(call) => {
            run_call(alloc, level, call, env, out, library)?;
            Ok(())
        }
        Statement::Condition(condition) => run_condition(
            alloc, level, condition, env, out, library,
        ),
    }
}

// An assignment whose right side is evaluated.
#[cycle(eval)]
#[tactic(auto, unfolding(gn_meaning::specs::Meaning::assignment_runs))]
fn assign<L: Library + Definer>(
    alloc: Global,
    level: Level,
    target: &Target,
    operator: AssignOp,
    position: Position,
    value: Value,
    env: &mut Env,
    out: &mut Outcome,
    library: &mut L,
) -> Result<(), EvalEnd>
    requires shallow { target_depth (target_of target.now) ≤ max_tree_depth }
    ensures { Evaluates (λ u. u) (L.state library.old) (L.state library.new) result env.new out.new (λ a. assignment_runs (world level.room a) level.nesting
        (target_of target.now) operator position (val_of value) env.old out.old) }
{
    match target {
        Target::Name { position: at, name } => {
            lift(assign_name(alloc, name, *at, operator, position, value, env))
        }
        Target::Item {
            position: base_at,
            base,
            bracket,
            index,
        } => {
            let at = eval_expr(alloc, level.deeper(1), index, env, out, library)?;
            lift(assign_element(
                alloc, base, *base_at, &at, *bracket, operator, position, value, env,
            ))
        }
        Target::Entry {
            position: base_at,
            base,
            dot,
            entry,
        } => lift(assign_entry(
            alloc, base, *base_at, *dot, entry, operator, position, value, env,
        )),
    }
}

// An assignment to an entry of a scope, whose dot stands there.
fn assign_entry(
    alloc: Global,
    base: &Text,
    base_position: Position,
    dot: Position,
    entry: &Text,
    operator: AssignOp,
    position: Position,
    value: Value,
    env: &mut Env,
) -> Result<(), StepEnd>
    ensures { (out : Effects) → IsStep (λ u. u) result env.new out (element_assigned_runs base.now base_position (vstr entry.now) dot operator position
        (val_of value) env.old out) }
{
    let at = Value::Str(entry.copy(alloc)?);
    assign_element(
        alloc,
        base,
        base_position,
        &at,
        dot,
        operator,
        position,
        value,
        env,
    )
}

// A condition, and the block that it picks.
#[cycle(eval)]
#[tactic(auto, unfolding(gn_meaning::specs::Meaning::condition_runs))]
fn run_condition<L: Library + Definer>(
    alloc: Global,
    level: Level,
    condition: &Condition,
    env: &mut Env,
    out: &mut Outcome,
    library: &mut L,
) -> Result<(), EvalEnd>
    requires shallow { condition_depth (condition_of condition.now) ≤ max_tree_depth }
    ensures { Evaluates (λ u. u) (L.state library.old) (L.state library.new) result env.new out.new (λ a. condition_runs (world level.room a) level.nesting
        (condition_of condition.now) env.old out.old) }
{
    let value = eval_expr(alloc, level.deeper(1), &condition.test, env, out, library)?;
    if judge(alloc, value, condition.test.first_position(), env)? {
        run_statements(alloc, level.deeper(1), &condition.block, env, out, library)
    } else {
        run_otherwise(alloc, level, &condition.otherwise, env, out, library)
    }
}

// Whether a condition holds that has this value and stands at `at`.
fn judge(alloc: Global, value: Value, at: Position, env: &Env) -> Result<bool, StepEnd>
    ensures { (out : Effects) → IsStep (λ b. b) result env.now out (truth_runs (val_of value) at env.now out) }
{
    truth(alloc, &value, at, env)
}

// What stands behind the block of a condition.
#[cycle(eval)]
#[tactic(auto, unfolding(gn_meaning::specs::Meaning::otherwise_runs))]
fn run_otherwise<L: Library + Definer>(
    alloc: Global,
    level: Level,
    otherwise: &Otherwise,
    env: &mut Env,
    out: &mut Outcome,
    library: &mut L,
) -> Result<(), EvalEnd>
    requires shallow { otherwise_depth (otherwise_of otherwise.now) ≤ max_tree_depth }
    ensures { Evaluates (λ u. u) (L.state library.old) (L.state library.new) result env.new out.new (λ a. otherwise_runs (world level.room a) level.nesting
        (otherwise_of otherwise.now) env.old out.old) }
{
    match otherwise {
        Otherwise::Nothing => Ok(()),
        Otherwise::Else(block) => run_statements(alloc, level.deeper(1), block, env, out, library),
        Otherwise::ElseIf(condition) => {
            run_condition(alloc, level.deeper(1), condition.get(), env, out, library)
        }
    }
}
