// Actions, which run a script once, or once for each source.

ghost use Rattle.std.specs.Prelude.{◌≡◌, IfOk};
ghost use Rattle.gn_records.specs.Around.{around};
ghost use Rattle.gn_records.specs.Actions.{with_runs, action_record, foreach_record};

use crate::context::Context;
use crate::keeping::beside;
use crate::paths::paths_at;
use crate::rules::{rule_of_action, script_of};
use crate::runs::{only_run, runs_for};
use crate::stamps::stamp_step;
use gn_items::Item;
use gn_rows::Variable;
use gn_writing::{Action, Dones, Runs, Written};
use std::alloc::{AllocError, Global};

// What is written of an action with these runs.
fn with_runs(
    alloc: Global,
    context: &Context<'_>,
    item: &Item,
    runs: Runs,
    dones: Dones,
) -> Result<Action, AllocError>
    ensures { IfOk result (λ a. a ≡ with_runs (around context.now) item.now runs dones) }
{
    let script = beside((runs, dones), script_of(alloc, context, item))?;
    let inputs = beside(script, paths_at(alloc, context, item, Variable::Inputs))?;
    let rule = beside(inputs, rule_of_action(alloc, context, item))?;
    let made = beside(rule, stamp_step(alloc, context, &item.label))?;
    let (((((runs, dones), script), inputs), rule), stamp) = made;
    Ok(Action {
        rule,
        script,
        inputs,
        runs,
        stamp,
        dones,
    })
}

// What is written of an action: its rule, its one run, and a stamp that stands for what that makes.
pub(crate) fn action(
    alloc: Global,
    context: &Context<'_>,
    item: &Item,
    dones: Dones,
) -> Result<Written, AllocError>
    ensures { IfOk result (λ w. w ≡ action_record (around context.now) item.now dones) }
{
    let (dones, runs) = beside(dones, only_run(alloc, context, item))?;
    Ok(Written::Action(with_runs(alloc, context, item, runs, dones)?))
}

// What is written of an action_foreach: its rule, its runs, one for each source, and a stamp that stands for what they make.
pub(crate) fn action_foreach(
    alloc: Global,
    context: &Context<'_>,
    item: &Item,
    dones: Dones,
) -> Result<Written, AllocError>
    ensures { IfOk result (λ w. w ≡ foreach_record (around context.now) item.now dones) }
{
    let runs = runs_for(alloc, context, item, item.fields.paths(Variable::Sources));
    let (dones, runs) = beside(dones, runs)?;
    Ok(Written::Action(with_runs(alloc, context, item, runs, dones)?))
}
