// Texts of tools that a target uses and that are no paths.

ghost use Rattle.std.specs.Prelude.{◌≡◌, IfOk, option_map};
ghost use Rattle.gn_records.specs.Around.{around};
ghost use Rattle.gn_build_faults.specs.Paths.{wrong_at, path_told, path_fault};

use crate::told::fault_with;
use gn_faults::{Code, Fault};
use gn_items::Item;
use gn_labelled::TargetGraph;
use gn_labels::Label;
use gn_paths::Texts;
use gn_records::Context;
use gn_tool_texts::wrong_text;
use std::alloc::{AllocError, Global};

// Why a text that an item uses is no path, if one is none; nothing where there is no item.
fn wrong_at(
    alloc: Global,
    context: &Context<'_>,
    item: Option<&Item>,
) -> Result<Option<Code>, AllocError>
    ensures { IfOk result (λ code. code ≡ wrong_at (around context.now) (option_map (λ i. i.now) item.entry)) }
{
    match item {
        None => Ok(None),
        Some(item) => wrong_text(alloc, context, item),
    }
}

// The fault of this code, if there is one.
fn told(
    alloc: Global,
    graph: &TargetGraph<'_, '_>,
    label: &Label,
    code: Option<Code>,
) -> Result<Option<Fault>, AllocError>
    ensures { IfOk result (λ fault. fault ≡ path_told graph.now.default.now graph.now.items.now label.now code) }
{
    match code {
        None => Ok(None),
        Some(code) => Ok(Some(fault_with(
            alloc,
            graph.default,
            graph.items,
            label,
            code,
            Texts::new(alloc),
        )?)),
    }
}

/// The fault of a target whose texts of tools aren't all paths, by what is known around it.
#[tactic(auto, unfolding(crate::specs::Paths::path_fault))]
pub(crate) fn path_fault(
    alloc: Global,
    graph: &TargetGraph<'_, '_>,
    context: &Context<'_>,
    label: &Label,
) -> Result<Option<Fault>, AllocError>
    ensures { IfOk result (λ fault. fault ≡ path_fault graph.now.default.now graph.now.items.now (around context.now) label.now) }
{
    let code = wrong_at(alloc, context, graph.item(label))?;
    told(alloc, graph, label, code)
}
