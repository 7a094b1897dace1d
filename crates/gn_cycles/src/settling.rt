// Targets that reach no cycle, by an order in which dependencies stand first.

ghost use Rattle.std.specs.Prelude.{◌≡◌, ◌++◌, OnOk, IfOk};
ghost use Rattle.std.specs.List.{list_all};
ghost use Rattle.gn_dependencies.specs.Lists.{has};
ghost use Rattle.gn_dependencies.specs.Shape.{all_deps};
ghost use Rattle.gn_cycles.specs.Settled.{AreSettled};

use gn_chains::{Firsts, Graph};
use gn_labels::Label;
use gn_rows::Variable;
use std::alloc::{AllocError, Global};

// Whether all of the labels are there.
fn has_all(settled: &Firsts, labels: &[Label]) -> bool
    ensures { result ≡ list_all (λ d. has settled.now d) labels.now }
{
    labels.iter().all(|label| settled.has(label))
}

// Whether all dependencies of a label are there.
#[tactic(auto, using(crate::proofs::Bounds::all_of_three))]
fn has_dependencies<G: Graph>(settled: &Firsts, graph: &G, label: &Label) -> bool
    ensures { result ≡ list_all (λ d. has settled.now d) (all_deps (G.shape graph.now) label.now) }
{
    has_all(settled, graph.labels(label, Variable::PublicDeps))
        && has_all(settled, graph.labels(label, Variable::Deps))
        && has_all(settled, graph.labels(label, Variable::DataDeps))
}

// Puts a label with the others, if all its dependencies are there.
fn settle<G: Graph>(settled: &mut Firsts, graph: &G, label: &Label) -> Result<(), AllocError>
    requires { AreSettled (G.shape graph.now) settled.old }
    ensures { OnOk result (AreSettled (G.shape graph.now) settled.new) }
{
    if has_dependencies(settled, graph, label) {
        settled.add(label)?;
    }
    Ok(())
}

/// Those of the labels that reach no cycle, as far as their order shows it: each all of whose dependencies stand before it and are
/// of these too. So in an order in which dependencies stand before those that depend on them it is each that reaches no cycle.
pub fn settled<G: Graph>(alloc: Global, order: &[Label], graph: &G) -> Result<Firsts, AllocError>
    ensures { IfOk result (AreSettled (G.shape graph.now)) }
{
    let mut settled = Firsts::new(alloc);
    for label in order {
        if let Err(error) = settle(&mut settled, graph, label) {
            drop(settled);
            return Err(error);
        }
    }
    Ok(settled)
}
