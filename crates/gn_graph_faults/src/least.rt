// The fault that is told of all targets.

ghost use Rattle.std.specs.Prelude.{◌≡◌, ◌∷◌, [], List, IfOk, MatchOption};
ghost use Rattle.gn_faults.specs.declared.fault.Fault.{Fault as Told};
ghost use Rattle.gn_cycles.specs.Settled.{AreSettled};
ghost use Rattle.gn_graph_faults.specs.Faults.{facts_of, AreFaults};
ghost use Rattle.gn_graph_faults.specs.Least.{IsFaultless, IsLeastFault};

use crate::faults::label_faults;
use crate::places::Places;
use gn_chains::Firsts;
use gn_faults::Fault;
use gn_labels::Label;
use std::alloc::{AllocError, Global};

// The first of the faults, if there is one.
fn first_of(faults: Vec<Fault>) -> Option<Fault>
    ensures { MatchOption result (faults.items ≡ []) (λ fault. (rest : List Told) × (faults.items ≡ fault ∷ rest)) }
{
    faults.into_iter().next()
}

// The first fault of a target, if it has one.
fn first_fault<G: Places>(
    alloc: Global,
    target: &Label,
    graph: &G,
    settled: &Firsts,
) -> Result<Option<Fault>, AllocError>
    requires { AreSettled (G.shape graph.now) settled.now }
    ensures { IfOk result (λ first. MatchOption first
        (IsFaultless (facts_of (G.default graph.now) (G.shape graph.now) (G.visibility graph.now) (G.testonly graph.now) (G.forbidden graph.now) (G.places graph.now)) target.now)
        (λ fault. (rest : List Told) × AreFaults (facts_of (G.default graph.now) (G.shape graph.now) (G.visibility graph.now) (G.testonly graph.now) (G.forbidden graph.now) (G.places graph.now))
        target.now (fault ∷ rest))) }
{
    let faults = label_faults(alloc, target, graph, settled)?;
    Ok(first_of(faults))
}

/// The fault of the graph that is told of some of its targets: the first fault of the first of them that has one, which is the least
/// of all where they stand in label order; None exactly where none of them has a fault. Of the labels in `settled` it is known that
/// they reach no cycle: for them none is looked for, so that it takes time in proportion to the graph where these are all but those
/// that reach one.
pub fn least_fault<G: Places>(
    alloc: Global,
    targets: &[Label],
    graph: &G,
    settled: &Firsts,
) -> Result<Option<Fault>, AllocError>
    requires { AreSettled (G.shape graph.now) settled.now }
    ensures { IfOk result (IsLeastFault
        (facts_of (G.default graph.now) (G.shape graph.now) (G.visibility graph.now) (G.testonly graph.now) (G.forbidden graph.now) (G.places graph.now))
        targets.now) }
{
    for target in targets {
        if let Some(fault) = first_fault(alloc, target, graph, settled)? {
            return Ok(Some(fault));
        }
    }
    Ok(None)
}
