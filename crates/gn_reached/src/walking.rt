// The targets that dependencies lead to.

ghost use Rattle.std.specs.Prelude.{◌≡◌, ◌↔◌, ◌++◌, OnOk, IfOk, true};
ghost use Rattle.gn_labels.specs.declared.label.Label.{Label as Named};
ghost use Rattle.gn_dependencies.specs.Cycles.{OnlyThese};
ghost use Rattle.gn_dependencies.specs.Lists.{has, added};
ghost use Rattle.gn_dependencies.specs.Shape.{all_deps};
ghost use Rattle.gn_graph_faults.specs.Order.{AreInOrder};
ghost use Rattle.gn_resolved_meant.specs.Laws.{IsReachedFrom};
ghost use Rattle.gn_resolved_meant.specs.Reached.{reached_in};

use gn_chains::{Firsts, Graph};
use gn_graph_faults::put_in_order;
use gn_labels::Label;
use gn_paths::Text;
use gn_resolved_meant::reached_targets_are_closed;
use gn_rows::Variable;
use std::alloc::{AllocError, Global};

// The dependencies of a label: the public, the private, and those of data.
fn dependencies<'a, G: Graph>(
    graph: &'a G,
    label: &Label,
) -> (&'a [Label], &'a [Label], &'a [Label])
    ensures { (result.0.now ++ result.1.now) ++ result.2.now ≡ all_deps (G.shape graph.now) label.now }
{
    (
        graph.labels(label, Variable::PublicDeps),
        graph.labels(label, Variable::Deps),
        graph.labels(label, Variable::DataDeps),
    )
}

// Puts those of three lists behind the others that aren't there.
fn add_three(out: &mut Firsts, labels: (&[Label], &[Label], &[Label])) -> Result<(), AllocError>
    ensures { OnOk result (out.new ≡ added out.old ((labels.entry.0.now ++ labels.entry.1.now) ++ labels.entry.2.now)) }
{
    out.add_all(labels.0)?;
    out.add_all(labels.1)?;
    out.add_all(labels.2)
}

// The labels, and those that dependencies lead to from them, each once.
fn walked_from<G: Graph>(alloc: Global, targets: &[Label], graph: &G) -> Result<Firsts, AllocError>
    requires { OnlyThese (G.shape graph.now) (G.all graph.now) }
    ensures { IfOk result (λ out. (q : Named) → (has out q ≡ true) ↔ IsReachedFrom (G.shape graph.now) targets.now q) }
{
    let mut out = Firsts::new(alloc);
    out.add_all(targets)?;
    let mut next = 0;
    while next < out.len() {
        let labels = dependencies(graph, out.at(next));
        add_three(&mut out, labels)?;
        next += 1;
    }
    Ok(out)
}

// The labels in label order.
fn in_label_order(labels: Firsts, default: &Text) -> Result<Vec<Label>, AllocError>
    ensures { IfOk result (λ ordered. AreInOrder default.now labels ordered.items) }
{
    let mut ordered = labels.into_vec()?;
    put_in_order(&mut ordered, default);
    Ok(ordered)
}

/// The labels of a list and all that dependencies lead to from them, those of data too, in label order and each once, where only the
/// labels of items have dependencies. It looks at each dependency once.
pub fn reached<G: Graph>(
    alloc: Global,
    targets: &[Label],
    graph: &G,
) -> Result<Vec<Label>, AllocError>
    requires { OnlyThese (G.shape graph.now) (G.all graph.now) }
    ensures { IfOk result (λ labels. labels.items ≡ reached_in (G.all graph.now) (G.default graph.now) (G.shape graph.now) targets.now) }
{
    reached_targets_are_closed();
    let walked = walked_from(alloc, targets, graph)?;
    in_label_order(walked, graph.default_toolchain())
}
