// Which walked labels each of them depends on, by their numbers.

ghost use Rattle.std.specs.Prelude.{◌≡◌, ℕ, OnOk, IfOk, ◌||◌, slice_get, nat_eq};
ghost use Rattle.std.specs.List.{IsDistinct};
ghost use Rattle.gn_dependencies.specs.Shape.{Shape};
ghost use Rattle.gn_chains.specs.Numbers.{among, is_label, has_some, lists_in, AreEdges};
ghost use Rattle.gn_chains.specs.Reached.{shown, near_of, AreNodes};

use crate::firsts::Firsts;
use crate::graph::Node;
use gn_labels::Label;
use indexmap::IndexSet;
use std::alloc::{AllocError, Global};

// Puts the number of a label with the others, if it was walked.
fn add_number(out: &mut IndexSet<usize>, walked: &Firsts, label: &Label) -> Result<(), AllocError>
    ensures { OnOk result ((n : ℕ) → among out.new.keys n ≡ (among out.old.keys n || is_label label.now (slice_get walked.now n))) }
{
    if let Some(number) = walked.number(label) {
        out.insert(number)?;
    }
    Ok(())
}

// Puts the numbers of those of the labels with the others that were walked.
fn add_numbers(
    out: &mut IndexSet<usize>,
    walked: &Firsts,
    labels: &[Label],
) -> Result<(), AllocError>
    ensures { OnOk result ((n : ℕ) → among out.new.keys n ≡ (among out.old.keys n || has_some labels.now (slice_get walked.now n))) }
{
    for label in labels {
        add_number(out, walked, label)?;
    }
    Ok(())
}

// Puts the numbers of the walked labels with the others on which a label depends, by public and private dependencies.
fn add_near(out: &mut IndexSet<usize>, walked: &Firsts, node: &Node<'_>) -> Result<(), AllocError>
    ensures { OnOk result ((n : ℕ) → among out.new.keys n ≡ (among out.old.keys n || has_some (near_of (shown node.now)) (slice_get walked.now n))) }
{
    add_numbers(out, walked, node.public)?;
    add_numbers(out, walked, node.private)
}

// The numbers, none of them twice.
fn into_numbers(alloc: Global, numbers: IndexSet<usize>) -> Result<Vec<usize>, AllocError>
    ensures numbers { IfOk result (λ list. list.items ≡ numbers.keys) }
    ensures once { IfOk result (λ list. IsDistinct nat_eq list.items) }
{
    numbers.into_iter().collect(alloc)
}

// The numbers of the walked labels on which a label depends, by public and private dependencies.
fn edges_from(alloc: Global, walked: &Firsts, node: &Node<'_>) -> Result<Vec<usize>, AllocError>
    ensures numbers { IfOk result (λ list. (n : ℕ) → among list.items n ≡ has_some (near_of (shown node.now)) (slice_get walked.now n)) }
    ensures once { IfOk result (λ list. IsDistinct nat_eq list.items) }
{
    let mut out = IndexSet::new(alloc);
    if let Err(error) = add_near(&mut out, walked, node) {
        drop(out);
        return Err(error);
    }
    into_numbers(alloc, out)
}

// The numbers of the walked labels on which each of them depends, by what a graph has of them.
pub(crate) fn edges(
    alloc: Global,
    nodes: &[Node<'_>],
    walked: &Firsts,
) -> Result<Vec<Vec<usize>>, AllocError>
    ensures { IfOk result (λ edges. (g : Shape) → AreNodes g walked.now nodes.now → AreEdges g walked.now (lists_in edges.items)) }
{
    let mut edges = Vec::with_capacity(alloc, nodes.len())?;
    for node in nodes {
        let list = edges_from(alloc, walked, node)?;
        edges.push(list)?;
    }
    Ok(edges)
}
