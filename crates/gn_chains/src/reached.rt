// The walk for libraries, with what the graph has of each label that it meets.

ghost use Rattle.std.specs.Prelude.{◌≡◌, ◌<◌, ◌++◌, ◌∷◌, [], length, slice_get, OnOk, IfOk, Some, false};
ghost use Rattle.gn_chains.specs.Reached.{shown, facts_of, opened_by, IsNext, IsMore, IsReached};
ghost use Rattle.gn_dependencies.specs.Lists.{has};
ghost use Rattle.gn_dependencies.specs.Shape.{Shape, near};

use crate::firsts::Firsts;
use crate::graph::{Graph, Node};
use crate::kinds::{opens, walks};
use gn_labels::Label;
use std::alloc::{AllocError, Global};

// The labels that a walk has met, each once, and what the graph has of each.
#[derive(Drop)]
pub(crate) struct Reached<'a> {
    pub(crate) labels: Firsts,
    pub(crate) nodes: Vec<Node<'a>>,
}

// What is known of the label of a number.
pub(crate) fn node_at<'a>(nodes: &[Node<'a>], number: usize) -> Node<'a>
    requires { number < length nodes.now }
    ensures { slice_get nodes.now number ≡ Some result }
{
    nodes[number]
}

// Puts a label that isn't there behind the others, with what a graph has of it.
fn push<'a>(out: &mut Reached<'a>, label: &Label, node: Node<'a>) -> Result<(), AllocError>
    requires { has out.old.labels label.now ≡ false }
    ensures { OnOk result ((g : Shape) → shown node.entry ≡ facts_of g label.now → IsNext g label.now out.old out.new) }
{
    out.labels.add(label)?;
    out.nodes.push(node)?;
    Ok(())
}

// Puts a label behind the others if the walk meets it and it isn't there.
fn meet<'a, G: Graph>(out: &mut Reached<'a>, graph: &'a G, label: &Label) -> Result<(), AllocError>
    ensures { OnOk result (IsMore (G.shape graph.now) (label.now ∷ []) out.old out.new) }
{
    if out.labels.has(label) {
        return Ok(());
    }
    let node = graph.node(label);
    if walks(node.kind) {
        return push(out, label, node);
    }
    Ok(())
}

// The same of several labels.
fn meet_each<'a, G: Graph>(
    out: &mut Reached<'a>,
    graph: &'a G,
    labels: &[Label],
) -> Result<(), AllocError>
    ensures { OnOk result (IsMore (G.shape graph.now) labels.now out.old out.new) }
{
    for label in labels {
        meet(out, graph, label)?;
    }
    Ok(())
}

// The same of the labels of two lists.
fn meet_both<'a, G: Graph>(
    out: &mut Reached<'a>,
    graph: &'a G,
    public: &[Label],
    private: &[Label],
) -> Result<(), AllocError>
    ensures { OnOk result (IsMore (G.shape graph.now) (public.now ++ private.now) out.old out.new) }
{
    meet_each(out, graph, public)?;
    meet_each(out, graph, private)
}

// The same of the dependencies of a label that the walk has met, if it goes through it.
fn meet_behind<'a, G: Graph>(
    out: &mut Reached<'a>,
    graph: &'a G,
    node: Node<'a>,
) -> Result<(), AllocError>
    ensures { OnOk result (IsMore (G.shape graph.now) (opened_by (shown node.entry)) out.old out.new) }
{
    if opens(node.kind) {
        return meet_both(out, graph, node.public, node.private);
    }
    Ok(())
}

// The same of the dependencies of a target.
fn meet_near<'a, G: Graph>(
    out: &mut Reached<'a>,
    graph: &'a G,
    target: &Label,
) -> Result<(), AllocError>
    ensures { OnOk result (IsMore (G.shape graph.now) (near (G.shape graph.now) target.now) out.old out.new) }
{
    let node = graph.node(target);
    meet_both(out, graph, node.public, node.private)
}

// Puts what the walk from a target meets into an empty list.
fn add_reached<'a, G: Graph>(
    out: &mut Reached<'a>,
    graph: &'a G,
    target: &Label,
) -> Result<(), AllocError>
    requires labels { out.old.labels ≡ [] }
    requires nodes { out.old.nodes.items ≡ [] }
    ensures { OnOk result (IsReached (G.shape graph.now) target.now out.new) }
{
    meet_near(out, graph, target)?;
    let mut next = 0;
    while next < out.labels.len() {
        let node = node_at(out.nodes.as_slice(), next);
        meet_behind(out, graph, node)?;
        next += 1;
    }
    Ok(())
}

// What the walk for libraries from a target meets.
pub(crate) fn reach<'a, G: Graph>(
    alloc: Global,
    target: &Label,
    graph: &'a G,
) -> Result<Reached<'a>, AllocError>
    ensures { IfOk result (λ out. IsReached (G.shape graph.now) target.now out) }
{
    let mut out = Reached {
        labels: Firsts::new(alloc),
        nodes: Vec::new(alloc),
    };
    if let Err(error) = add_reached(&mut out, graph, target) {
        drop(out);
        return Err(error);
    }
    Ok(out)
}
