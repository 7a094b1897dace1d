// What the configurations hold that apply to a target.

ghost use Rattle.std.specs.Prelude.{◌≡◌, ◌++◌, IfOk, OnOk, option_map};
ghost use Rattle.gn_dependencies.specs.Configurations.{AreRecorded};
ghost use Rattle.gn_labelled.specs.Graphs.{shape_of};
ghost use Rattle.gn_records.specs.Around.{fields_of};
ghost use Rattle.gn_resolve.specs.Resolved.{fields_in};
ghost use Rattle.gn_resolve.specs.Table.{configs_of, handed_in, AreFields};

use crate::table::Known;
use gn_chains::applied;
use gn_define::Fields;
use gn_items::Item;
use gn_labelled::ItemIndex;
use gn_labels::Label;
use std::alloc::{AllocError, Global};

// Puts the fields of an item behind the others, if there is one.
fn add_fields<'a>(out: &mut Vec<&'a Fields>, item: Option<&'a Item>) -> Result<(), AllocError>
    ensures { OnOk result (fields_of out.new.items ≡ fields_of out.old.items ++ fields_in (option_map (λ i. i.now) item.entry)) }
{
    match item {
        None => Ok(()),
        Some(item) => {
            out.push(&item.fields)?;
            Ok(())
        }
    }
}

// The fields of the items of these labels, in their order.
fn configs_of<'a>(
    alloc: Global,
    items: &ItemIndex<'a>,
    labels: &[Label],
) -> Result<Vec<&'a Fields>, AllocError>
    ensures { IfOk result (λ list. fields_of list.items ≡ configs_of items.now labels.now) }
{
    let mut out = Vec::new(alloc);
    for label in labels {
        add_fields(&mut out, items.item(label))?;
    }
    Ok(out)
}

// The fields of the configurations that apply to a target, in their order.
pub(crate) fn configs<'a>(
    alloc: Global,
    graph: &Known<'a>,
    target: &Label,
) -> Result<Vec<&'a Fields>, AllocError>
    requires { AreRecorded (shape_of graph.now.items) (handed_in graph.now.records) target.now }
    ensures { IfOk result (λ list. AreFields graph.now.items target.now (fields_of list.items)) }
{
    let labels = applied(alloc, target, graph)?;
    configs_of(alloc, &graph.items, labels.as_slice())
}
