// Expressions.

ghost use Rattle.std.specs.Prelude.{◌≡◌, ◌<◌, ◌≤◌, OnOk, [], false, map};
ghost use Rattle.gn_tree.specs.Depth.{max_tree_depth, expr_depth, exprs_depth, call_depth, block_depth};
ghost use Rattle.gn_tree.specs.Views.{expr_of, exprs_of, call_of};
ghost use Rattle.gn_values.specs.View.{val_of};
ghost use Rattle.gn_environment.specs.Environment.{entered};
ghost use Rattle.gn_meaning.specs.Steps.{deeper, then_do};
ghost use Rattle.gn_meaning.specs.Words.{base_runs, element_runs, list_runs, scope_runs, negation_runs};
ghost use Rattle.gn_meaning.specs.Calls.{call_value_runs};
ghost use Rattle.gn_meaning.specs.Meaning.{world, expr_runs, operator_runs, values_run, call_runs, block_runs};
ghost use Rattle.gn_eval.specs.Ends.{Evaluates};
ghost use Rattle.gn_eval.specs.Operations.{IsOperand};

use crate::calls::run_call;
use crate::ending::{EvalEnd, lift};
use crate::level::Level;
use crate::library::Library;
use crate::operations::{Operation, left_operand, operators_in};
use crate::statements::run_statements;
use gn_calls_scopes::Definer;
use gn_env::Env;
use gn_expressions::{
    add_value, boolean, end_scope, expand, make_list, negate, operate, read_base, read_element,
    read_entry, read_name, value_of_call,
};
use gn_faults::Code;
use gn_items::Outcome;
use gn_paths::Text;
use gn_steps::wrong;
use gn_tree::{BinaryOp, Block, Call, Expr, Exprs, Position, SubExpr};
use gn_values::Value;
use std::alloc::Global;

/// The value of an expression.
#[cycle(eval)]
pub(crate) fn eval_expr<L: Library + Definer>(
    alloc: Global,
    level: Level,
    expr: &Expr,
    env: &mut Env,
    out: &mut Outcome,
    library: &mut L,
) -> Result<Value, EvalEnd>
    requires shallow { expr_depth (expr_of expr.now) ≤ max_tree_depth }
    ensures { Evaluates val_of (L.state library.old) (L.state library.new) result env.new out.new (λ a. expr_runs (world level.room a) level.nesting
        (expr_of expr.now) env.old out.old) }
{
    let (leftmost, mut operations) = left_operand(alloc, expr)?;
    let mut value = eval_operand(alloc, level, leftmost, env, out, library)?;
    let mut inner = level.deeper(1);
    'operators: while let Some(operation) = operations.pop() {
        value = apply(alloc, inner, operation, value, env, out, library)?;
        inner = inner.deeper(operators_in(operation.right.get()).saturating_add(1));
    }
    Ok(value)
}

// The value of an expression whose outermost part is no operator.
#[cycle(eval)]
#[tactic(auto, unfolding(gn_meaning::specs::Meaning::expr_runs))]
fn eval_operand<L: Library + Definer>(
    alloc: Global,
    level: Level,
    expr: &Expr,
    env: &mut Env,
    out: &mut Outcome,
    library: &mut L,
) -> Result<Value, EvalEnd>
    requires operand { IsOperand (expr_of expr.now) }
    requires shallow { expr_depth (expr_of expr.now) ≤ max_tree_depth }
    ensures { Evaluates val_of (L.state library.old) (L.state library.new) result env.new out.new (λ a. expr_runs (world level.room a) level.nesting
        (expr_of expr.now) env.old out.old) }
{
    match expr {
        Expr::Name { position, name } => lift(read_name(alloc, name, *position, env)),
        Expr::Integer { value, .. } => Ok(Value::Int(*value)),
        Expr::String { position, pieces } => {
            lift(expand(alloc, pieces.as_slice(), *position, env))
        }
        Expr::Boolean { value, .. } => Ok(Value::Bool(*value)),
        Expr::Call(call) => eval_call(alloc, level, call, env, out, library),
        Expr::Item {
            position,
            base,
            bracket,
            index,
        } => eval_item(
            alloc, level, base, *position, index, *bracket, env, out, library,
        ),
        Expr::Entry {
            position,
            base,
            dot,
            entry,
        } => lift(read_entry(alloc, base, *position, entry, *dot, env)),
        Expr::Scope { position, block } => eval_scope(
            alloc,
            level.deeper(1),
            block,
            *position,
            env,
            out,
            library,
        ),
        Expr::Parentheses { inner, .. } => eval_expr(
            alloc,
            level.deeper(1),
            inner.get(),
            env,
            out,
            library,
        ),
        Expr::List { position, items } => eval_list(
            alloc,
            level.deeper(1),
            items,
            *position,
            env,
            out,
            library,
        ),
        Expr::Not { position, operand } => {
            let value = eval_expr(alloc, level.deeper(1), operand.get(), env, out, library)?;
            lift(negate(alloc, &value, *position, env))
        }
        Expr::Binary { .. } => unreachable!(),
    }
}

// The value of a call, which has to have one.
#[cycle(eval)]
fn eval_call<L: Library + Definer>(
    alloc: Global,
    level: Level,
    call: &Call,
    env: &mut Env,
    out: &mut Outcome,
    library: &mut L,
) -> Result<Value, EvalEnd>
    requires shallow { call_depth (call_of call.now) ≤ max_tree_depth }
    ensures { Evaluates val_of (L.state library.old) (L.state library.new) result env.new out.new (λ a. then_do
        (call_runs (world level.room a) level.nesting (call_of call.now) env.old out.old) (λ v env1 out1. call_value_runs v call.now.position env1 out1)) }
{
    let value = run_call(alloc, level, call, env, out, library)?;
    lift(value_of_call(alloc, value, call.position, env))
}

// `base[index]`: the base has to have a value before the index is evaluated.
#[cycle(eval)]
fn eval_item<L: Library + Definer>(
    alloc: Global,
    level: Level,
    base: &Text,
    position: Position,
    index: &SubExpr,
    bracket: Position,
    env: &mut Env,
    out: &mut Outcome,
    library: &mut L,
) -> Result<Value, EvalEnd>
    requires shallow { expr_depth index.now ≤ max_tree_depth }
    ensures { Evaluates val_of (L.state library.old) (L.state library.new) result env.new out.new (λ a. then_do (base_runs base.now position env.old out.old)
        (λ _ env1 out1. then_do (expr_runs (world level.room a) (deeper level.nesting 1) index.now env1 out1) (λ at env2 out2. element_runs base.now position at bracket env2 out2))) }
{
    read_base(alloc, base, position, env)?;
    let at = eval_expr(alloc, level.deeper(1), index.get(), env, out, library)?;
    lift(read_element(alloc, base, position, &at, bracket, env))
}

// An operator behind its left side: `&&` and `||` look at its type first and stop early, all others evaluate the right
// side first.
#[cycle(eval)]
fn apply<L: Library + Definer>(
    alloc: Global,
    level: Level,
    operation: Operation<'_>,
    left: Value,
    env: &mut Env,
    out: &mut Outcome,
    library: &mut L,
) -> Result<Value, EvalEnd>
    requires shallow { expr_depth operation.right.now ≤ max_tree_depth }
    ensures { Evaluates val_of (L.state library.old) (L.state library.new) result env.new out.new (λ a. operator_runs operation.entry.operator (val_of left)
        (expr_runs (world level.room a) level.nesting operation.entry.right.now) operation.entry.position env.old out.old) }
{
    let Operation {
        operator,
        position,
        right,
    } = operation;
    match operator {
        BinaryOp::And => match left {
            Value::Bool(false) => Ok(Value::Bool(false)),
            Value::Bool(true) => {
                let right = eval_expr(alloc, level, right.get(), env, out, library)?;
                Ok(boolean(alloc, right, position, env)?)
            }
            _ => Err(wrong(alloc, env, Code::BadTypes, position).into()),
        },
        BinaryOp::Or => match left {
            Value::Bool(true) => Ok(Value::Bool(true)),
            Value::Bool(false) => {
                let right = eval_expr(alloc, level, right.get(), env, out, library)?;
                Ok(boolean(alloc, right, position, env)?)
            }
            _ => Err(wrong(alloc, env, Code::BadTypes, position).into()),
        },
        _ => {
            let right = eval_expr(alloc, level, right.get(), env, out, library)?;
            Ok(operate(alloc, operator, left, right, position, env)?)
        }
    }
}

// The value of a scope literal: what its block sets.
#[cycle(eval)]
fn eval_scope<L: Library + Definer>(
    alloc: Global,
    level: Level,
    block: &Block,
    position: Position,
    env: &mut Env,
    out: &mut Outcome,
    library: &mut L,
) -> Result<Value, EvalEnd>
    requires shallow { block_depth block.now ≤ max_tree_depth }
    ensures { Evaluates val_of (L.state library.old) (L.state library.new) result env.new out.new (λ a. then_do
        (block_runs (world level.room a) level.nesting block.now (entered false env.old) out.old) (λ _ env1 out1. scope_runs position env1 out1)) }
{
    env.enter(false)?;
    run_statements(alloc, level, block, env, out, library)?;
    lift(end_scope(alloc, position, env))
}

// The value of a list literal whose bracket stands at the position: all its items are evaluated, then they have to be
// within the limits.
#[cycle(eval)]
fn eval_list<L: Library + Definer>(
    alloc: Global,
    level: Level,
    items: &Exprs,
    position: Position,
    env: &mut Env,
    out: &mut Outcome,
    library: &mut L,
) -> Result<Value, EvalEnd>
    requires shallow { exprs_depth items.now ≤ max_tree_depth }
    ensures { Evaluates val_of (L.state library.old) (L.state library.new) result env.new out.new (λ a. then_do
        (values_run (world level.room a) level.nesting items.now [] env.old out.old) (λ vs env1 out1. list_runs vs position env1 out1)) }
{
    let values = eval_values(alloc, level, items.as_slice(), env, out, library)?;
    lift(make_list(alloc, values, position, env))
}

/// The values of arguments, in order.
#[cycle(eval)]
#[tactic(auto, unfolding(gn_meaning::specs::Meaning::values_run))]
pub(crate) fn eval_values<L: Library + Definer>(
    alloc: Global,
    level: Level,
    arguments: &[Expr],
    env: &mut Env,
    out: &mut Outcome,
    library: &mut L,
) -> Result<Vec<Value>, EvalEnd>
    requires shallow { exprs_depth (exprs_of arguments.now) ≤ max_tree_depth }
    ensures { Evaluates (λ vs. map val_of vs.items) (L.state library.old) (L.state library.new) result env.new out.new (λ a. values_run (world level.room a) level.nesting
        (exprs_of arguments.now) [] env.old out.old) }
{
    let mut values = Vec::new(alloc);
    for argument in arguments {
        let value = eval_expr(alloc, level, argument, env, out, library)?;
        add_value(&mut values, value)?;
    }
    Ok(values)
}
