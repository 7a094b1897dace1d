// The faults of one code.

ghost use Rattle.std.specs.Prelude.{◌≡◌, ◌++◌, ◌∷◌, [], OnOk, map};
ghost use Rattle.gn_graph_faults.specs.Faults.{fault_told, facts_of};
ghost use Rattle.gn_graph_faults.specs.Told.{TellsMore, AreFaulty};

use crate::order::put_in_order;
use crate::places::Places;
use crate::telling::add_fault;
use gn_faults::{Code, Fault, codes_have_different_numbers};
use gn_labels::Label;
use std::alloc::{AllocError, Global};
use std::slice;

// Puts a fault of a target with this code for each of the labels behind the others.
fn add_listed<G: Places>(
    alloc: Global,
    out: &mut Vec<Fault>,
    target: &Label,
    graph: &G,
    code: Code,
    labels: &[Label],
) -> Result<(), AllocError>
    ensures { OnOk result (out.new.items
        ≡ out.old.items ++ map (λ label. fault_told (G.default graph.now) (G.places graph.now target.now) target.now code (label ∷ [])) labels.now) }
{
    for label in labels {
        add_fault(alloc, out, target, graph, code, slice::from_ref(label))?;
    }
    Ok(())
}

// Puts the faults of a target with this code behind the others, where these are the labels for which it has one.
pub(crate) fn add_each<G: Places>(
    alloc: Global,
    out: &mut Vec<Fault>,
    target: &Label,
    graph: &G,
    code: Code,
    labels: &mut Vec<Label>,
) -> Result<(), AllocError>
    requires { AreFaulty (facts_of (G.default graph.now) (G.shape graph.now) (G.visibility graph.now) (G.testonly graph.now) (G.forbidden graph.now) (G.places graph.now))
        target.now code labels.old.items }
    ensures { OnOk result (TellsMore (facts_of (G.default graph.now) (G.shape graph.now) (G.visibility graph.now) (G.testonly graph.now) (G.forbidden graph.now) (G.places graph.now))
        target.now code out.old.items out.new.items) }
{
    codes_have_different_numbers();
    put_in_order(labels, graph.default_toolchain());
    add_listed(alloc, out, target, graph, code, labels.as_slice())
}
