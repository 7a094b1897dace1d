// The faults of each code.

ghost use Rattle.std.specs.Prelude.{◌≡◌, ◌∷◌, [], IfOk, OnOk, option_map};
ghost use Rattle.gn_faults.specs.declared.code.Code.TheVariants.{Unresolved, WrongKind, Cycle, Invisible, TestOnly, AssertNoDeps};
ghost use Rattle.gn_cycles.specs.Settled.{AreSettled};
ghost use Rattle.gn_cycles.specs.Shortest.{IsShortestCycle};
ghost use Rattle.gn_graph_faults.specs.Faults.{facts_of};
ghost use Rattle.gn_graph_faults.specs.Told.{TellsMore, AreFaulty};

use crate::adding::add_each;
use crate::places::Places;
use crate::telling::add_fault;
use gn_chains::Firsts;
use gn_cycles::{settled_targets_lie_on_no_cycle, shortest_cycle, there_is_one_shortest_path};
use gn_faults::{Code, Fault, codes_have_different_numbers};
use gn_labels::{Label, label_order_has_no_ties};
use gn_rules::{
    forbidden_target, foreign_labels, hidden_configs, hidden_targets, missing_labels, testonly_deps,
};
use std::alloc::{AllocError, Global};

// The faults of labels that no item has.
pub(crate) fn add_missing<G: Places>(
    alloc: Global,
    out: &mut Vec<Fault>,
    target: &Label,
    graph: &G,
) -> Result<(), AllocError>
    ensures { OnOk result (TellsMore (facts_of (G.default graph.now) (G.shape graph.now) (G.visibility graph.now) (G.testonly graph.now) (G.forbidden graph.now) (G.places graph.now))
        target.now Unresolved out.old.items out.new.items) }
{
    let mut labels = missing_labels(alloc, target, graph)?;
    add_each(alloc, out, target, graph, Code::Unresolved, &mut labels)
}

// The faults of labels of items of another kind.
pub(crate) fn add_foreign<G: Places>(
    alloc: Global,
    out: &mut Vec<Fault>,
    target: &Label,
    graph: &G,
) -> Result<(), AllocError>
    ensures { OnOk result (TellsMore (facts_of (G.default graph.now) (G.shape graph.now) (G.visibility graph.now) (G.testonly graph.now) (G.forbidden graph.now) (G.places graph.now))
        target.now WrongKind out.old.items out.new.items) }
{
    let mut labels = foreign_labels(alloc, target, graph)?;
    add_each(alloc, out, target, graph, Code::WrongKind, &mut labels)
}

// The shortest cycle on which a target lies, which isn't looked for where it is known that there is none.
fn cycle_of<G: Places>(
    alloc: Global,
    target: &Label,
    graph: &G,
    settled: &Firsts,
) -> Result<Option<Vec<Label>>, AllocError>
    requires { AreSettled (G.shape graph.now) settled.now }
    ensures { IfOk result (λ cycle. IsShortestCycle (G.shape graph.now) target.now (option_map (λ labels. labels.items) cycle)) }
{
    settled_targets_lie_on_no_cycle();
    if settled.has(target) {
        Ok(None)
    } else {
        shortest_cycle(alloc, target, graph)
    }
}

// The fault of a cycle on which the target lies.
pub(crate) fn add_cycle<G: Places>(
    alloc: Global,
    out: &mut Vec<Fault>,
    target: &Label,
    graph: &G,
    settled: &Firsts,
) -> Result<(), AllocError>
    requires { AreSettled (G.shape graph.now) settled.now }
    ensures { OnOk result (TellsMore (facts_of (G.default graph.now) (G.shape graph.now) (G.visibility graph.now) (G.testonly graph.now) (G.forbidden graph.now) (G.places graph.now))
        target.now Cycle out.old.items out.new.items) }
{
    codes_have_different_numbers();
    there_is_one_shortest_path();
    match cycle_of(alloc, target, graph, settled)? {
        None => Ok(()),
        Some(labels) => add_fault(alloc, out, target, graph, Code::Cycle, labels.as_slice()),
    }
}

// The labels of what isn't visible to the target.
fn hidden<G: Places>(alloc: Global, target: &Label, graph: &G) -> Result<Vec<Label>, AllocError>
    ensures { IfOk result (λ labels. AreFaulty (facts_of (G.default graph.now) (G.shape graph.now) (G.visibility graph.now) (G.testonly graph.now) (G.forbidden graph.now) (G.places graph.now))
        target.now Invisible labels.items) }
{
    let mut labels = hidden_targets(alloc, target, graph)?;
    let mut configs = hidden_configs(alloc, target, graph)?;
    labels.append(&mut configs)?;
    Ok(labels)
}

// The faults of what isn't visible to the target.
pub(crate) fn add_hidden<G: Places>(
    alloc: Global,
    out: &mut Vec<Fault>,
    target: &Label,
    graph: &G,
) -> Result<(), AllocError>
    ensures { OnOk result (TellsMore (facts_of (G.default graph.now) (G.shape graph.now) (G.visibility graph.now) (G.testonly graph.now) (G.forbidden graph.now) (G.places graph.now))
        target.now Invisible out.old.items out.new.items) }
{
    let mut labels = hidden(alloc, target, graph)?;
    add_each(alloc, out, target, graph, Code::Invisible, &mut labels)
}

// The faults of dependencies for tests alone.
pub(crate) fn add_for_tests<G: Places>(
    alloc: Global,
    out: &mut Vec<Fault>,
    target: &Label,
    graph: &G,
) -> Result<(), AllocError>
    ensures { OnOk result (TellsMore (facts_of (G.default graph.now) (G.shape graph.now) (G.visibility graph.now) (G.testonly graph.now) (G.forbidden graph.now) (G.places graph.now))
        target.now TestOnly out.old.items out.new.items) }
{
    let mut labels = testonly_deps(alloc, target, graph)?;
    add_each(alloc, out, target, graph, Code::TestOnly, &mut labels)
}

// A list of one label.
fn listed(alloc: Global, label: Label) -> Result<Vec<Label>, AllocError>
    ensures { IfOk result (λ labels. labels.items ≡ label ∷ []) }
{
    let mut labels = Vec::new(alloc);
    labels.push(label)?;
    Ok(labels)
}

// The label of the target that is shown as one that mustn't be reached, if there is one.
fn forbidden<G: Places>(alloc: Global, target: &Label, graph: &G) -> Result<Vec<Label>, AllocError>
    ensures { IfOk result (λ labels. AreFaulty (facts_of (G.default graph.now) (G.shape graph.now) (G.visibility graph.now) (G.testonly graph.now) (G.forbidden graph.now) (G.places graph.now))
        target.now AssertNoDeps labels.items) }
{
    label_order_has_no_ties();
    match forbidden_target(alloc, target, graph)? {
        None => Ok(Vec::new(alloc)),
        Some(label) => listed(alloc, label),
    }
}

// The fault of a target that mustn't be reached.
pub(crate) fn add_forbidden<G: Places>(
    alloc: Global,
    out: &mut Vec<Fault>,
    target: &Label,
    graph: &G,
) -> Result<(), AllocError>
    ensures { OnOk result (TellsMore (facts_of (G.default graph.now) (G.shape graph.now) (G.visibility graph.now) (G.testonly graph.now) (G.forbidden graph.now) (G.places graph.now))
        target.now AssertNoDeps out.old.items out.new.items) }
{
    let mut labels = forbidden(alloc, target, graph)?;
    add_each(alloc, out, target, graph, Code::AssertNoDeps, &mut labels)
}
