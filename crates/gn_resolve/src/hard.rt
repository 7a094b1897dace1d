// The actions and copies to which the dependencies of a target lead.

ghost use Rattle.std.specs.Prelude.{◌≡◌, IfOk, OnOk, [], ◌∷◌};
ghost use Rattle.std.specs.List.{flat_map};
ghost use Rattle.gn_dependencies.specs.Lists.{added};
ghost use Rattle.gn_dependencies.specs.Shape.{near};
ghost use Rattle.gn_graph_faults.specs.Order.{AreInOrder};
ghost use Rattle.gn_labelled.specs.Graphs.{shape_of};
ghost use Rattle.gn_resolved_meant.specs.Reached.{is_hard, hard_of};
ghost use Rattle.gn_resolved_meant.specs.Laws.{hard_from};
ghost use Rattle.gn_resolve.specs.Table.{hard_at, hard_along};

use crate::table::Known;
use gn_chains::{Firsts, Graph};
use gn_graph_faults::put_in_order;
use gn_labels::Label;
use gn_rows::{ItemKind, Variable};
use std::alloc::{AllocError, Global};

// Whether targets of the kind are done before the objects of those that depend on them are built.
fn is_hard(kind: Option<ItemKind>) -> bool
    ensures { result ≡ is_hard kind }
{
    match kind {
        Some(ItemKind::Action) => true,
        Some(ItemKind::ActionForeach) => true,
        Some(ItemKind::Copy) => true,
        _ => false,
    }
}

// Puts a dependency with the others if it is such a target.
fn add_own(out: &mut Firsts, graph: &Known<'_>, label: &Label) -> Result<(), AllocError>
    ensures { OnOk result (out.new ≡ added out.old (hard_of (shape_of graph.now.items) (label.now ∷ []))) }
{
    if is_hard(graph.kind(label)) {
        return out.add(label);
    }
    Ok(())
}

// The same, and those to which it leads.
fn add_along(out: &mut Firsts, graph: &Known<'_>, label: &Label) -> Result<(), AllocError>
    ensures { OnOk result (out.new ≡ added out.old (hard_along graph.now.items graph.now.records label.now)) }
{
    add_own(out, graph, label)?;
    out.add_all(graph.records.hard(label))
}

// The same of several dependencies.
fn add_each(out: &mut Firsts, graph: &Known<'_>, labels: &[Label]) -> Result<(), AllocError>
    ensures { OnOk result (out.new ≡ added out.old (flat_map (hard_along graph.now.items graph.now.records) labels.now)) }
{
    for label in labels {
        add_along(out, graph, label)?;
    }
    Ok(())
}

// The same of all public and private dependencies of a target.
fn joined(alloc: Global, graph: &Known<'_>, target: &Label) -> Result<Vec<Label>, AllocError>
    ensures { IfOk result (λ list. list.items
        ≡ added [] (flat_map (hard_along graph.now.items graph.now.records) (near (shape_of graph.now.items) target.now))) }
{
    let mut out = Firsts::new(alloc);
    add_each(&mut out, graph, graph.labels(target, Variable::PublicDeps))?;
    add_each(&mut out, graph, graph.labels(target, Variable::Deps))?;
    out.into_vec()
}

// The actions and copies to which public and private dependencies of a target lead, in label order and each once, joined of what is
// kept of these dependencies.
pub(crate) fn hard(
    alloc: Global,
    graph: &Known<'_>,
    target: &Label,
) -> Result<Vec<Label>, AllocError>
    ensures { IfOk result (λ list. AreInOrder graph.now.default.now
        (hard_from (shape_of graph.now.items) (hard_at graph.now.records) target.now) list.items) }
{
    let mut labels = joined(alloc, graph, target)?;
    put_in_order(&mut labels, graph.default);
    Ok(labels)
}
