// Walks along dependencies.

ghost use Rattle.std.specs.Prelude.{◌≡◌, ◌↔◌, ◌++◌, [], OnOk, IfOk, true};
ghost use Rattle.gn_labels.specs.declared.label.Label.{Label as Named};
ghost use Rattle.gn_dependencies.specs.Lists.{has, added};
ghost use Rattle.gn_chains.specs.Walking.{looked_at, met, opened, IsMetBy};

use crate::firsts::Firsts;
use crate::graph::Graph;
use crate::kinds::Walk;
use gn_labels::Label;
use gn_rows::Variable;
use std::alloc::{AllocError, Global};

// Puts those of the labels behind the others that a walk meets.
fn add_met<G: Graph>(
    out: &mut Firsts,
    graph: &G,
    walk: Walk,
    labels: &[Label],
) -> Result<(), AllocError>
    ensures { OnOk result (out.new ≡ added out.old (met walk (G.shape graph.now) labels.now)) }
{
    for label in labels {
        if walk.meets(graph.kind(label)) {
            out.add(label)?;
        }
    }
    Ok(())
}

// Puts those of the labels of three lists behind the others that a walk meets.
fn add_all_met<G: Graph>(
    out: &mut Firsts,
    graph: &G,
    walk: Walk,
    labels: (&[Label], &[Label], &[Label]),
) -> Result<(), AllocError>
    ensures { OnOk result (out.new ≡ added out.old (met walk (G.shape graph.now) ((labels.entry.0.now ++ labels.entry.1.now) ++ labels.entry.2.now))) }
{
    add_met(out, graph, walk, labels.0)?;
    add_met(out, graph, walk, labels.1)?;
    add_met(out, graph, walk, labels.2)
}

// The dependencies of a label that a walk looks at: the public, the private, and those of data.
#[tactic(auto, using(crate::proofs::Thrice::with_none))]
fn seen_at<'a, G: Graph>(
    graph: &'a G,
    walk: Walk,
    label: &Label,
) -> (&'a [Label], &'a [Label], &'a [Label])
    ensures { (result.0.now ++ result.1.now) ++ result.2.now ≡ looked_at walk (G.shape graph.now) label.now }
{
    (
        graph.labels(label, Variable::PublicDeps),
        graph.labels(label, Variable::Deps),
        match walk {
            Walk::Libraries => &[],
            Walk::Targets => graph.labels(label, Variable::DataDeps),
        },
    )
}

// What a walk looks at from a label that it has met: its dependencies, where it goes through it.
fn seen_from<'a, G: Graph>(
    graph: &'a G,
    walk: Walk,
    label: &Label,
) -> (&'a [Label], &'a [Label], &'a [Label])
    ensures { (result.0.now ++ result.1.now) ++ result.2.now ≡ opened walk (G.shape graph.now) label.now }
{
    if walk.goes_through(graph.kind(label)) {
        seen_at(graph, walk, label)
    } else {
        (&[], &[], &[])
    }
}

// Puts the labels that a walk from a target meets into an empty list.
fn add_walked<G: Graph>(
    out: &mut Firsts,
    graph: &G,
    walk: Walk,
    target: &Label,
) -> Result<(), AllocError>
    requires { out.old ≡ [] }
    ensures { OnOk result ((q : Named) → (has out.new q ≡ true) ↔ IsMetBy walk (G.shape graph.now) target.now q) }
{
    add_all_met(out, graph, walk, seen_at(graph, walk, target))?;
    let mut next = 0;
    while next < out.len() {
        let labels = seen_from(graph, walk, out.at(next));
        add_all_met(out, graph, walk, labels)?;
        next += 1;
    }
    Ok(())
}

/// The labels that a walk from a target meets: those next to it, and those next to each that it has met and goes through; each
/// once.
pub fn walked<G: Graph>(
    alloc: Global,
    walk: Walk,
    target: &Label,
    graph: &G,
) -> Result<Firsts, AllocError>
    ensures { IfOk result (λ out. (q : Named) → (has out q ≡ true) ↔ IsMetBy walk (G.shape graph.now) target.now q) }
{
    let mut out = Firsts::new(alloc);
    if let Err(error) = add_walked(&mut out, graph, walk, target) {
        drop(out);
        return Err(error);
    }
    Ok(out)
}
