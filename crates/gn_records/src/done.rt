// The files that stand for a target.

ghost use Rattle.std.specs.Prelude.{◌≡◌, IfOk, option_map};
ghost use Rattle.gn_writing.specs.Outputs.{values_of, tool_outputs};
ghost use Rattle.gn_records.specs.Around.{around};
ghost use Rattle.gn_records.specs.Done.{set_outs, first_path, done_of, linked_of};
ghost use Rattle.gn_records.specs.Output.{tool_given};
ghost use Rattle.gn_records.specs.Outputs.{for_none};

use crate::context::Context;
use crate::output::{given_alone, substs_of_tool};
use crate::stamps::stamp;
use gn_items::{Item, ItemKind, Tool};
use gn_paths::{Text, Texts};
use gn_rows::Variable;
use gn_substs::{Position, Subst};
use gn_writing::{OutputNames, tool_outputs};
use std::alloc::{AllocError, Global};

// The first of some paths; nothing where there is none.
fn first_path(alloc: Global, paths: &Texts) -> Result<Text, AllocError>
    ensures { IfOk result (λ t. t ≡ first_path paths.now) }
{
    match paths.as_slice() {
        [path, ..] => path.copy(alloc),
        [] => Ok(Text::new(alloc)),
    }
}

// What texts of a tool stand for.
fn outs_at(
    alloc: Global,
    names: &OutputNames<'_>,
    position: Position,
    texts: &[Subst],
) -> Result<Texts, AllocError>
    ensures { IfOk result (λ outs. outs ≡ tool_outputs (values_of names.now) (tool_given position (values_of names.now) for_none) texts.now) }
{
    let given = given_alone(alloc, position, names)?;
    let outs = tool_outputs(alloc, names, &given, texts);
    drop(given);
    outs
}

// The first path that a tool's own text stands for where it is set, and else the first that the tool makes.
fn first_set(
    alloc: Global,
    names: &OutputNames<'_>,
    position: Position,
    texts: &[Subst],
    outs: &Texts,
) -> Result<Text, AllocError>
    ensures { IfOk result (λ t. t ≡ first_path (set_outs (values_of names.now) position texts.now outs.now)) }
{
    if texts.is_empty() {
        return first_path(alloc, outs);
    }
    let set = outs_at(alloc, names, position, texts)?;
    let path = first_path(alloc, &set);
    drop(set);
    path
}

// The done file of a target, by what its tool makes.
pub(crate) fn done_of(
    alloc: Global,
    context: &Context<'_>,
    item: &Item,
    names: &OutputNames<'_>,
    tool: Option<&Tool>,
    outs: &Texts,
) -> Result<Text, AllocError>
    ensures { IfOk result (λ t. t ≡ done_of (around context.now) item.now item.now.kind (values_of names.now) (option_map (λ t. t.now) tool.entry) outs.now) }
{
    match item.kind {
        ItemKind::SharedLibrary => {
            let texts = substs_of_tool(tool, Variable::DependOutput);
            first_set(alloc, names, Position::ToolDependOutput, texts, outs)
        }
        ItemKind::StaticLibrary | ItemKind::Executable | ItemKind::LoadableModule => {
            first_path(alloc, outs)
        }
        _ => stamp(alloc, context, &item.label),
    }
}

// What is linked of a target.
pub(crate) fn linked_of(
    alloc: Global,
    kind: ItemKind,
    names: &OutputNames<'_>,
    tool: Option<&Tool>,
    outs: &Texts,
) -> Result<Text, AllocError>
    ensures { IfOk result (λ t. t ≡ linked_of kind (values_of names.now) (option_map (λ t. t.now) tool.entry) outs.now) }
{
    match kind {
        ItemKind::SharedLibrary => {
            let texts = substs_of_tool(tool, Variable::LinkOutput);
            first_set(alloc, names, Position::ToolLinkOutput, texts, outs)
        }
        _ => first_path(alloc, outs),
    }
}
