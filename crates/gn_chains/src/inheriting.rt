// The libraries that a linked target inherits.

ghost use Rattle.std.specs.Prelude.{◌≡◌, ℕ, ◌<◌, ◌++◌, ◌∷◌, [], length, IfOk, OnOk, true, filter, map, slice_index_or};
ghost use Rattle.gn_labels.specs.declared.label.Label.{Label as Named};
ghost use Rattle.gn_dependencies.specs.Configurations.{AreRecorded};
ghost use Rattle.gn_dependencies.specs.Inherited.{is_library, AreLibraries, IsInherited};
ghost use Rattle.gn_chains.specs.Numbers.{among};
ghost use Rattle.gn_chains.specs.Walked.{AreWalked};
ghost use Rattle.gn_chains.specs.Reached.{AreNodes, IsReached};
ghost use Rattle.gn_dependencies.specs.Shape.{Shape};

use crate::edges::edges;
use crate::graph::{Graph, Node};
use crate::kinds::{is_library, links};
use crate::order::order;
use crate::reached::{Reached, node_at, reach};
use gn_labels::Label;
use std::alloc::{AllocError, Global};

// The label of a number.
fn label_at(walked: &[Label], number: usize) -> &Label
    requires { number < length walked.now }
    ensures { (d : Named) → result.now ≡ slice_index_or walked.now number d }
{
    &walked[number]
}

// Puts a copy of a label behind the others.
fn push_copy(alloc: Global, labels: &mut Vec<Label>, label: &Label) -> Result<(), AllocError>
    ensures { OnOk result (labels.new.items ≡ labels.old.items ++ label.now ∷ []) }
{
    let label = label.copy(alloc)?;
    labels.push(label)?;
    Ok(())
}

// Those of the labels with these numbers that are libraries, in the order of the numbers, by what a graph has of them.
fn libraries_at(
    alloc: Global,
    nodes: &[Node<'_>],
    walked: &[Label],
    order: &[usize],
) -> Result<Vec<Label>, AllocError>
    requires below { (n : ℕ) → among order.now n ≡ true → n < length walked.now }
    requires sized { length nodes.now ≡ length walked.now }
    ensures { IfOk result (λ labels. (g : Shape) → AreNodes g walked.now nodes.now → (d : Named) → labels.items
        ≡ filter (λ q. is_library (g.kind q)) (map (λ n. slice_index_or walked.now n d) order.now)) }
{
    let mut labels = Vec::with_capacity(alloc, order.len())?;
    for number in order {
        let node = node_at(nodes, *number);
        if is_library(node.kind) {
            push_copy(alloc, &mut labels, label_at(walked, *number))?;
        }
    }
    Ok(labels)
}

// The libraries among the labels that a walk from a target has met, in their order.
fn libraries_among<G: Graph>(
    alloc: Global,
    graph: &G,
    reached: &Reached<'_>,
) -> Result<Vec<Label>, AllocError>
    requires { (t : Named) × AreRecorded (G.shape graph.now) (G.records graph.now) t × IsReached (G.shape graph.now) t reached.now }
    ensures { IfOk result (λ labels. (t : Named) → AreWalked (G.shape graph.now) t reached.now.labels → AreLibraries (G.default graph.now) (G.shape graph.now) t labels.items) }
{
    let walked = reached.labels.as_slice();
    let nodes = reached.nodes.as_slice();
    let edges = edges(alloc, nodes, &reached.labels)?;
    let ended = order(alloc, graph.default_toolchain(), walked, &edges);
    drop(edges);
    let order = ended?;
    let labels = libraries_at(alloc, nodes, walked, &order);
    drop(order);
    labels
}

// The libraries that a target inherits that is linked.
fn libraries<G: Graph>(alloc: Global, target: &Label, graph: &G) -> Result<Vec<Label>, AllocError>
    requires { AreRecorded (G.shape graph.now) (G.records graph.now) target.now }
    ensures { IfOk result (λ labels. AreLibraries (G.default graph.now) (G.shape graph.now) target.now labels.items) }
{
    let reached = reach(alloc, target, graph)?;
    let labels = libraries_among(alloc, graph, &reached);
    drop(reached);
    labels
}

/// The libraries that a target inherits: none unless it is an executable, a shared library or a loadable module; else the source
/// sets, static libraries and shared libraries that a walk from it meets, by public and private dependencies, through groups,
/// source sets and static libraries; each once. At each place stands the first in label order of those all of whose dependents
/// among what is walked stand before. The records of all its dependencies must be there, so it reaches no cycle.
pub fn inherited<G: Graph>(
    alloc: Global,
    target: &Label,
    graph: &G,
) -> Result<Vec<Label>, AllocError>
    requires { AreRecorded (G.shape graph.now) (G.records graph.now) target.now }
    ensures { IfOk result (λ labels. IsInherited (G.default graph.now) (G.shape graph.now) target.now labels.items) }
{
    if links(graph.kind(target)) {
        libraries(alloc, target, graph)
    } else {
        Ok(Vec::new(alloc))
    }
}
