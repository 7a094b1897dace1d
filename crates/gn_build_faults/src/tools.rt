// Tools that a target needs and its toolchain lacks.

ghost use Rattle.std.specs.Prelude.{◌≡◌, ◌∷◌, [], IfOk, option_map};
ghost use Rattle.gn_labels.specs.Labels.{printed};
ghost use Rattle.gn_faults.specs.declared.code.Code.TheVariants.{Unresolved};
ghost use Rattle.gn_build_faults.specs.Told.{fault_with as meant};
ghost use Rattle.gn_build_faults.specs.Tools.{lacking, lacking_told, tool_fault};

use crate::told::fault_with;
use gn_faults::{Code, Fault};
use gn_items::{Item, Tool};
use gn_labelled::TargetGraph;
use gn_labels::Label;
use gn_needed_tools::missing_tools;
use gn_paths::{Text, Texts};
use std::alloc::{AllocError, Global};

// The names of the tools that an item needs and its toolchain, which has these tools, lacks.
fn lacking(alloc: Global, tools: &[Tool], item: Option<&Item>) -> Result<Vec<Text>, AllocError>
    ensures { IfOk result (λ names. names.items ≡ lacking tools.now (option_map (λ i. i.now) item.entry)) }
{
    match item {
        None => Ok(Vec::new(alloc)),
        Some(item) => missing_tools(alloc, item, tools),
    }
}

// A label as it is printed and the name of a tool.
fn details(alloc: Global, label: &Label, name: &Text, default: &Text) -> Result<Texts, AllocError>
    ensures { IfOk result (λ texts. texts ≡ printed default.now label.now ∷ name.now ∷ []) }
{
    let mut texts = Texts::new(alloc);
    let label = label.print(alloc, default)?;
    texts.push(label)?;
    let name = name.copy(alloc)?;
    texts.push(name)?;
    Ok(texts)
}

// The fault of a tool of this name.
fn told(
    alloc: Global,
    graph: &TargetGraph<'_, '_>,
    label: &Label,
    name: &Text,
) -> Result<Fault, AllocError>
    ensures { IfOk result (λ fault. fault ≡ meant graph.now.default.now graph.now.items.now label.now Unresolved (printed graph.now.default.now label.now ∷ name.now ∷ [])) }
{
    let detail = details(alloc, label, name, graph.default)?;
    fault_with(
        alloc,
        graph.default,
        graph.items,
        label,
        Code::Unresolved,
        detail,
    )
}

// The fault of the first of these names.
fn lacking_told(
    alloc: Global,
    graph: &TargetGraph<'_, '_>,
    label: &Label,
    names: &[Text],
) -> Result<Option<Fault>, AllocError>
    ensures { IfOk result (λ fault. fault ≡ lacking_told graph.now.default.now graph.now.items.now label.now names.now) }
{
    match names {
        [name, ..] => Ok(Some(told(alloc, graph, label, name)?)),
        [] => Ok(None),
    }
}

/// The fault of the first tool that a target needs and its toolchain, which has these tools, lacks.
#[tactic(auto, unfolding(crate::specs::Tools::tool_fault))]
pub(crate) fn tool_fault(
    alloc: Global,
    graph: &TargetGraph<'_, '_>,
    tools: &[Tool],
    label: &Label,
) -> Result<Option<Fault>, AllocError>
    ensures { IfOk result (λ fault. fault ≡ tool_fault graph.now.default.now graph.now.items.now tools.now label.now) }
{
    let names = lacking(alloc, tools, graph.item(label))?;
    lacking_told(alloc, graph, label, names.as_slice())
}
