// A fault that tells texts.

ghost use Rattle.std.specs.Prelude.{◌≡◌, IfOk, option_map};
ghost use Rattle.gn_graph_faults.specs.Faults.{toolchain_told};
ghost use Rattle.gn_labelled.specs.Graphs.{place_at};
ghost use Rattle.gn_build_faults.specs.Told.{fault_with};

use gn_faults::{Code, Fault, Stage};
use gn_items::Item;
use gn_labelled::ItemIndex;
use gn_labels::Label;
use gn_paths::{Place, Text, Texts};
use std::alloc::{AllocError, Global};

// A copy of the place where the call stands that defines an item, if there is one.
fn place_of(alloc: Global, item: Option<&Item>) -> Result<Option<Place>, AllocError>
    ensures { IfOk result (λ copy. copy ≡ place_at (option_map (λ i. i.now) item.entry)) }
{
    match item {
        None => Ok(None),
        Some(item) => Ok(Some(item.place.copy(alloc)?)),
    }
}

// The toolchain of a label's fault.
fn toolchain_of(alloc: Global, label: &Label, default: &Text) -> Result<Text, AllocError>
    ensures { IfOk result (λ text. text ≡ toolchain_told default.now label.now.toolchain) }
{
    if label.toolchain == *default {
        Ok(Text::new(alloc))
    } else {
        label.toolchain.copy(alloc)
    }
}

/// The fault of the item of a label that tells these texts.
pub(crate) fn fault_with(
    alloc: Global,
    default: &Text,
    items: &ItemIndex<'_>,
    label: &Label,
    code: Code,
    detail: Texts,
) -> Result<Fault, AllocError>
    ensures { IfOk result (λ fault. fault ≡ fault_with default.now items.now label.now code detail) }
{
    let place = place_of(alloc, items.item(label))?;
    let toolchain = toolchain_of(alloc, label, default)?;
    Ok(Fault {
        stage: Stage::Graph,
        place,
        toolchain,
        code,
        detail,
    })
}
