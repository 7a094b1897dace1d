// The labels of the targets that a build generates, in label order.

ghost use Rattle.std.specs.Prelude.{◌≡◌, ◌<◌, IfOk, OnOk, Some, length, map, slice_get};
ghost use Rattle.gn_labels.specs.Labels.{order_key};
ghost use Rattle.gn_closure.specs.Reach.{Is_generated, Holds};
ghost use Rattle.gn_graph.specs.Facts.{step_of};
ghost use Rattle.gn_graph.specs.Needs.{home};
ghost use Rattle.gn_graph.specs.Replies.{units_in};
ghost use Rattle.gn_builds.specs.Rest.{AreGenerated};
ghost use Rattle.gn_judging.specs.Whole.{IsTable};
ghost use Rattle.gn_judging.specs.Generated.{label_texts, label_lent, toolchain_lent, IsPut, IsMore};

use crate::executions::other_than;
use crate::ordered::put_in_order;
use gn_answers::Answer;
use gn_book::Book;
use gn_graph::{Fact, Graph};
use gn_labels::Label;
use gn_paths::{Path, Text};
use std::alloc::{AllocError, Global};

// A label as it is sorted, of which nothing is copied. Those that are made with one default toolchain are in label order.
#[derive(Clone, Copy, PartialEq, Eq, PartialOrd, Ord)]
pub(crate) struct LentLabel<'a> {
    pub(crate) dir: &'a Path,
    pub(crate) name: &'a Text,
    // The toolchain, and None where that is the default one.
    pub(crate) toolchain: Option<&'a Text>,
}

// Puts a label behind others.
fn put_label<'a>(
    labels: &mut Vec<LentLabel<'a>>,
    label: &'a Label,
    default: &Text,
) -> Result<(), AllocError>
    ensures { OnOk result (IsPut default.now label.now labels.old.items labels.new.items) }
{
    let toolchain = other_than(&label.toolchain, default);
    labels.push(LentLabel {
        dir: &label.dir,
        name: &label.name,
        toolchain,
    })?;
    Ok(())
}

// Puts the label of a fact behind others, if it says that one is generated.
fn put<'a>(
    labels: &mut Vec<LentLabel<'a>>,
    fact: &'a Fact,
    default: &Text,
) -> Result<(), AllocError>
    ensures { OnOk result (IsMore default.now (step_of fact.now) labels.old.items labels.new.items) }
{
    match fact {
        Fact::Generated(label) => put_label(labels, label, default),
        _ => Ok(()),
    }
}

// The fact of a number, which there is.
fn fact_at(graph: &Graph, n: usize) -> &Fact
    requires { n < length graph.now.found }
    ensures { slice_get graph.now.found n ≡ Some (step_of result.now) }
{
    match graph.found(n) {
        Some(fact) => fact,
        None => unreachable!(),
    }
}

// The labels that the facts of a graph say to be generated.
fn labels_of<'a>(
    alloc: Global,
    graph: &'a Graph,
    default: &Text,
) -> Result<Vec<LentLabel<'a>>, AllocError>
    ensures { IfOk result (λ labels. IsTable (label_lent default.now) label_texts (order_key default.now) (λ label. Holds home (units_in graph.now.replies) (Is_generated label)) labels.items) }
{
    let mut labels = Vec::new(alloc);
    for n in 0..graph.len() {
        put(&mut labels, fact_at(graph, n), default)?;
    }
    Ok(labels)
}

// The toolchain of a label.
fn toolchain_of<'a>(lent: Option<&'a Text>, default: &'a Text) -> &'a Text
    ensures { result.now ≡ toolchain_lent default.now lent.entry }
{
    match lent {
        None => default,
        Some(toolchain) => toolchain,
    }
}

// A label that was lent.
fn copied(alloc: Global, lent: LentLabel<'_>, default: &Text) -> Result<Label, AllocError>
    ensures { IfOk result (λ label. label ≡ label_lent default.now lent.entry) }
{
    let dir = lent.dir.copy(alloc)?;
    let name = lent.name.copy(alloc)?;
    let toolchain = toolchain_of(lent.toolchain, default).copy(alloc)?;
    Ok(Label {
        dir,
        name,
        toolchain,
    })
}

// Labels that were lent.
fn all_copied(
    alloc: Global,
    lent: &[LentLabel<'_>],
    default: &Text,
) -> Result<Vec<Label>, AllocError>
    ensures { IfOk result (λ labels. labels.items ≡ map (label_lent default.now) lent.now) }
{
    let mut labels = Vec::with_capacity(alloc, lent.len())?;
    for label in lent {
        labels.push(copied(alloc, *label, default)?)?;
    }
    Ok(labels)
}

/// The labels of the targets that are generated over what is filed, in label order.
pub(crate) fn generated_labels(
    alloc: Global,
    book: &Book<Answer>,
    default: &Text,
) -> Result<Vec<Label>, AllocError>
    ensures { IfOk result (λ labels. AreGenerated default.now book.now labels.items) }
{
    let mut labels = labels_of(alloc, book.graph(), default)?;
    put_in_order(&mut labels)?;
    all_copied(alloc, &labels, default)
}
