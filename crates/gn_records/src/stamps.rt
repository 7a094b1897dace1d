// Stamps: files that stand for what a target has made.

ghost use Rattle.std.specs.Prelude.{◌≡◌, ◌++◌, codes, IfOk, OnOk};
ghost use Rattle.gn_records.specs.Around.{around};
ghost use Rattle.gn_records.specs.Steps.{stamp_of, stamp_step, response_of};

use crate::context::Context;
use crate::keeping::beside;
use gn_labels::Label;
use gn_paths::{Text, Texts};
use gn_rows::ToolName;
use gn_writing::{Step, target_file, tool_rule};
use std::alloc::{AllocError, Global};

// The stamp of a target: a file beside its objects, as seen from the build directory. It is the done file of groups, source
// sets, actions and copies.
pub(crate) fn stamp(alloc: Global, context: &Context<'_>, label: &Label) -> Result<Text, AllocError>
    ensures { IfOk result (λ t. t ≡ stamp_of (around context.now) label.now) }
{
    target_file(alloc, context.build, context.out, label, b".stamp")
}

// The response file of an action.
pub(crate) fn response(
    alloc: Global,
    context: &Context<'_>,
    label: &Label,
) -> Result<Text, AllocError>
    ensures { IfOk result (λ t. t ≡ response_of (around context.now) label.now) }
{
    let mut text = stamp(alloc, context, label)?;
    let added = text.append(b".rsp");
    let (text, ()) = beside(text, added)?;
    Ok(text)
}

// Puts what the tool that makes stamps makes behind the others.
pub(crate) fn add_stamp(
    alloc: Global,
    outs: &mut Texts,
    context: &Context<'_>,
    label: &Label,
) -> Result<(), AllocError>
    ensures { OnOk result (outs.new ≡ outs.old ++ (stamp_step (around context.now) label.now).outs) }
{
    if context.tools.has(ToolName::Stamp.name()) {
        return outs.push(stamp(alloc, context, label)?);
    }
    Ok(())
}

// What the tool that makes stamps makes.
fn stamp_outs(alloc: Global, context: &Context<'_>, label: &Label) -> Result<Texts, AllocError>
    ensures { IfOk result (λ outs. outs ≡ (stamp_step (around context.now) label.now).outs) }
{
    let mut outs = Texts::new(alloc);
    let added = add_stamp(alloc, &mut outs, context, label);
    let (outs, ()) = beside(outs, added)?;
    Ok(outs)
}

// The line that makes a stamp.
pub(crate) fn stamp_step(
    alloc: Global,
    context: &Context<'_>,
    label: &Label,
) -> Result<Step, AllocError>
    ensures { IfOk result (λ step. step ≡ stamp_step (around context.now) label.now) }
{
    let rule = tool_rule(alloc, context.prefix, ToolName::Stamp)?;
    let (rule, outs) = beside(rule, stamp_outs(alloc, context, label))?;
    Ok(Step { rule, outs })
}
