// What joins the objects of a compiled target.

ghost use Rattle.std.specs.Prelude.{◌≡◌, IfOk, true};
ghost use Rattle.gn_writing.specs.Outputs.{values_of};
ghost use Rattle.gn_records.specs.Around.{around};
ghost use Rattle.gn_records.specs.Compiled.{tool_step, join_step, rest_where, only_where, join_of};

use crate::context::Context;
use crate::inherited::Inherited;
use crate::keeping::beside;
use crate::sources::outs_of_tool;
use crate::stamps::stamp_step;
use crate::texts::both;
use gn_items::Item;
use gn_paths::Texts;
use gn_rows::ToolName;
use gn_writing::{Dones, Join, OutputNames, Step, rest, tool_rule};
use std::alloc::{AllocError, Global};

// The line of a tool that joins the objects.
fn tool_step(
    alloc: Global,
    context: &Context<'_>,
    names: &OutputNames<'_>,
    tool: ToolName,
) -> Result<Step, AllocError>
    ensures { IfOk result (λ step. step ≡ tool_step (around context.now) (values_of names.now) tool) }
{
    let rule = tool_rule(alloc, context.prefix, tool)?;
    let outs = outs_of_tool(alloc, names, None, context.tools.get(tool));
    let (rule, outs) = beside(rule, outs)?;
    Ok(Step { rule, outs })
}

// The line that joins the objects: a stamp where the kind has no tool for its output.
pub(crate) fn join_step(
    alloc: Global,
    context: &Context<'_>,
    item: &Item,
    names: &OutputNames<'_>,
    tool: Option<ToolName>,
) -> Result<Step, AllocError>
    ensures { IfOk result (λ step. step ≡ join_step (around context.now) item.now (values_of names.now) tool) }
{
    match tool {
        Some(tool) => tool_step(alloc, context, names, tool),
        None => stamp_step(alloc, context, &item.label),
    }
}

// The done files that aren't in the line of a linked target and aren't of inherited source sets.
#[tactic(auto, using(crate::proofs::Lists::rest_of_two))]
fn linked_rest(
    alloc: Global,
    dones: &Dones,
    objects: &Texts,
    inherited: &Inherited,
) -> Result<Texts, AllocError>
    ensures { IfOk result (λ list. list ≡ rest_where true dones.now objects.now inherited.now) }
{
    rest(
        alloc,
        &[&dones.deps, &dones.data_deps],
        &[
            objects,
            &inherited.set_objects,
            &inherited.statics,
            &inherited.shared,
            &inherited.set_dones,
        ],
    )
}

// The done files that wait beside the line.
fn rest_where(
    alloc: Global,
    is_linked: bool,
    dones: &Dones,
    objects: &Texts,
    inherited: &Inherited,
) -> Result<Texts, AllocError>
    ensures { IfOk result (λ list. list ≡ rest_where is_linked dones.now objects.now inherited.now) }
{
    if is_linked {
        return linked_rest(alloc, dones, objects, inherited);
    }
    both(alloc, &dones.deps, &dones.data_deps)
}

// Copies of paths where the target is linked.
fn only_where(alloc: Global, is_linked: bool, paths: &Texts) -> Result<Texts, AllocError>
    ensures { IfOk result (λ list. list ≡ only_where is_linked paths.now) }
{
    if is_linked {
        return paths.copy(alloc);
    }
    Ok(Texts::new(alloc))
}

// What joins the objects.
pub(crate) fn join_of(
    alloc: Global,
    is_linked: bool,
    step: Step,
    dones: &Dones,
    objects: &Texts,
    inherited: &Inherited,
) -> Result<Join, AllocError>
    ensures { IfOk result (λ join. join ≡ join_of is_linked step dones.now objects.now inherited.now) }
{
    let rest = rest_where(alloc, is_linked, dones, objects, inherited);
    let waiting = beside(step, rest)?;
    let set_objects = only_where(alloc, is_linked, &inherited.set_objects);
    let sets = beside(waiting, set_objects)?;
    let statics = beside(sets, only_where(alloc, is_linked, &inherited.statics))?;
    let made = beside(statics, only_where(alloc, is_linked, &inherited.shared))?;
    let ((((step, rest), set_objects), statics), shared) = made;
    Ok(Join {
        step,
        set_objects,
        statics,
        shared,
        rest,
    })
}
