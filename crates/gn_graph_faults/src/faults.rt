// The faults of a target.

ghost use Rattle.std.specs.Prelude.{◌≡◌, [], IfOk, OnOk};
ghost use Rattle.gn_cycles.specs.Settled.{AreSettled};
ghost use Rattle.gn_graph_faults.specs.Faults.{facts_of, AreFaults};

use crate::kinds::{add_cycle, add_for_tests, add_forbidden, add_foreign, add_hidden, add_missing};
use crate::places::Places;
use gn_chains::Firsts;
use gn_faults::Fault;
use gn_labels::Label;
use std::alloc::{AllocError, Global};

// Puts the faults of a target into an empty list.
fn add_faults<G: Places>(
    alloc: Global,
    out: &mut Vec<Fault>,
    target: &Label,
    graph: &G,
    settled: &Firsts,
) -> Result<(), AllocError>
    requires empty { out.old.items ≡ [] }
    requires settled { AreSettled (G.shape graph.now) settled.now }
    ensures { OnOk result (AreFaults (facts_of (G.default graph.now) (G.shape graph.now) (G.visibility graph.now) (G.testonly graph.now) (G.forbidden graph.now) (G.places graph.now))
        target.now out.new.items) }
{
    add_missing(alloc, out, target, graph)?;
    add_foreign(alloc, out, target, graph)?;
    add_cycle(alloc, out, target, graph, settled)?;
    add_hidden(alloc, out, target, graph)?;
    add_for_tests(alloc, out, target, graph)?;
    add_forbidden(alloc, out, target, graph)
}

/// The faults of a target, in the order in which they are told: by code, and those of one code by the label that is shown behind
/// the target's own, in label order. Each stands once, where the call stands that defines the target, under its toolchain:
/// `Unresolved` for a label that it names and no item has, `WrongKind` for one of another kind, `Cycle` with the shortest cycle of
/// dependencies on which it lies, `Invisible` for a dependency or a configuration of its own that isn't visible to it, `TestOnly` for a
/// dependency for tests alone where it isn't for them, and `AssertNoDeps` with the first target that it reaches and mustn't.
/// Of the labels in `settled` it is known that they reach no cycle: for them none is looked for. Tools and what is made twice aren't
/// looked at.
pub fn label_faults<G: Places>(
    alloc: Global,
    target: &Label,
    graph: &G,
    settled: &Firsts,
) -> Result<Vec<Fault>, AllocError>
    requires { AreSettled (G.shape graph.now) settled.now }
    ensures { IfOk result (λ faults. AreFaults (facts_of (G.default graph.now) (G.shape graph.now) (G.visibility graph.now) (G.testonly graph.now) (G.forbidden graph.now) (G.places graph.now))
        target.now faults.items) }
{
    let mut faults = Vec::new(alloc);
    add_faults(alloc, &mut faults, target, graph, settled)?;
    Ok(faults)
}
