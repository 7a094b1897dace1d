// The rules of actions.

ghost use Rattle.std.specs.Prelude.{◌≡◌, IfOk};
ghost use Rattle.gn_records.specs.Around.{around};
ghost use Rattle.gn_records.specs.Actions.{first_seen, script_of, first_pool, rule_of_action};

use crate::context::Context;
use crate::keeping::beside;
use gn_items::Item;
use gn_labels::Label;
use gn_paths::{Path, Text};
use gn_rows::Variable;
use gn_writing::{ActionRule, action_command, action_description, action_rule_name, pool_name};
use std::alloc::{AllocError, Global};

// The first path of a list as seen from the build directory.
fn first_seen(alloc: Global, build: &Path, paths: &[Path]) -> Result<Text, AllocError>
    ensures { IfOk result (λ t. t ≡ first_seen build.now paths.now) }
{
    match paths {
        [path, ..] => path.seen_from(alloc, build),
        [] => Ok(Text::new(alloc)),
    }
}

// The script.
pub(crate) fn script_of(
    alloc: Global,
    context: &Context<'_>,
    item: &Item,
) -> Result<Text, AllocError>
    ensures { IfOk result (λ t. t ≡ script_of (around context.now) item.now) }
{
    first_seen(alloc, context.build, item.fields.paths(Variable::Script))
}

// The name of the first of these pools.
pub(crate) fn first_pool(alloc: Global, default: &Text, pools: &[Label]) -> Result<Text, AllocError>
    ensures { IfOk result (λ t. t ≡ first_pool default.now pools.now) }
{
    match pools {
        [pool, ..] => pool_name(alloc, pool, default),
        [] => Ok(Text::new(alloc)),
    }
}

// The command.
fn command_of(alloc: Global, context: &Context<'_>, item: &Item) -> Result<Text, AllocError>
    ensures { IfOk result (λ t. t ≡ (rule_of_action (around context.now) item.now).command) }
{
    let script = script_of(alloc, context, item)?;
    let command = action_command(alloc, context.program, &script);
    drop(script);
    command
}

// The rule of an action.
pub(crate) fn rule_of_action(
    alloc: Global,
    context: &Context<'_>,
    item: &Item,
) -> Result<ActionRule, AllocError>
    ensures { IfOk result (λ rule. rule ≡ rule_of_action (around context.now) item.now) }
{
    let name = action_rule_name(alloc, &item.label)?;
    let command = beside(name, command_of(alloc, context, item))?;
    let description = action_description(alloc, &item.label, context.default);
    let described = beside(command, description)?;
    let pool = first_pool(alloc, context.default, item.fields.labels(Variable::Pool));
    let (((name, command), description), pool) = beside(described, pool)?;
    Ok(ActionRule {
        name,
        command,
        description,
        pool,
    })
}
