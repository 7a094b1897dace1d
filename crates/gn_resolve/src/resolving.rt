// Targets are resolved once their dependencies are.

ghost use Rattle.std.specs.Prelude.{◌≡◌, ◌∷◌, [], OnOk, true};
ghost use Rattle.std.specs.List.{list_all};
ghost use Rattle.gn_dependencies.specs.Shape.{all_deps};
ghost use Rattle.gn_labelled.specs.Graphs.{shape_of};
ghost use Rattle.gn_records.specs.Around.{around};
ghost use Rattle.gn_resolve.specs.Table.{is_in, AreIn};
ghost use Rattle.gn_resolve.specs.Steps.{surroundings_of, surroundings_in, IsFit, IsAround, IsHeld, IsResolved, IsStep};

use crate::making::resolve;
use crate::table::{Known, Resolved};
use gn_chains::Graph;
use gn_labels::Label;
use gn_records::Context;
use gn_rows::Variable;
use gn_toolchains::Frames;
use std::alloc::{AllocError, Global};

// Whether each of the labels is resolved.
pub(crate) fn are_in(records: &Resolved, labels: &[Label]) -> bool
    ensures { result ≡ list_all (is_in records.now) labels.now }
{
    labels.iter().all(|label| records.has(label))
}

// Whether each dependency of a target is resolved.
#[tactic(auto, using(crate::proofs::Ready::all_of_three))]
pub(crate) fn is_ready(graph: &Known<'_>, target: &Label) -> bool
    ensures { result ≡ list_all (is_in graph.now.records) (all_deps (shape_of graph.now.items) target.now) }
{
    are_in(&graph.records, graph.labels(target, Variable::PublicDeps))
        && are_in(&graph.records, graph.labels(target, Variable::Deps))
        && are_in(&graph.records, graph.labels(target, Variable::DataDeps))
}

// Resolves a target whose dependencies are resolved, where what never changes for it is this.
fn resolve_with(
    alloc: Global,
    context: &Context<'_>,
    graph: &mut Known<'_>,
    target: &Label,
) -> Result<(), AllocError>
    requires around { IsAround graph.old.default.now graph.old.items target.now.toolchain (around context.now) }
    requires held { IsHeld (surroundings_in (around context.now)) graph.old.items graph.old.records }
    requires ready { AreIn graph.old.records (all_deps (shape_of graph.old.items) target.now) }
    ensures resolved { OnOk result (IsResolved (surroundings_in (around context.now)) graph.old.items target.now graph.old.records graph.new.records) }
    ensures same { OnOk result ((graph.new.items ≡ graph.old.items) × (graph.new.default ≡ graph.old.default)) }
{
    let label = target.copy(alloc)?;
    let entry = resolve(alloc, context, graph, target)?;
    graph.records.put(label, entry)
}

// The same where what never changes for it is known.
fn resolve_ready(
    alloc: Global,
    frames: &Frames<'_>,
    graph: &mut Known<'_>,
    target: &Label,
) -> Result<(), AllocError>
    requires fit { IsFit frames.now graph.old.default.now graph.old.items }
    requires held { IsHeld (surroundings_of frames.now) graph.old.items graph.old.records }
    requires ready { list_all (is_in graph.old.records) (all_deps (shape_of graph.old.items) target.now) ≡ true }
    ensures step { OnOk result (IsStep frames.now graph.old.items (target.now ∷ []) graph.old.records graph.new.records) }
    ensures same { OnOk result ((graph.new.items ≡ graph.old.items) × (graph.new.default ≡ graph.old.default)) }
{
    match frames.context(&target.toolchain) {
        None => Ok(()),
        Some(context) => resolve_with(alloc, &context, graph, target),
    }
}

// Resolves a target if it isn't resolved and its dependencies are.
fn try_resolve(
    alloc: Global,
    frames: &Frames<'_>,
    graph: &mut Known<'_>,
    target: &Label,
) -> Result<(), AllocError>
    requires fit { IsFit frames.now graph.old.default.now graph.old.items }
    requires held { IsHeld (surroundings_of frames.now) graph.old.items graph.old.records }
    ensures step { OnOk result (IsStep frames.now graph.old.items (target.now ∷ []) graph.old.records graph.new.records) }
    ensures same { OnOk result ((graph.new.items ≡ graph.old.items) × (graph.new.default ≡ graph.old.default)) }
{
    if graph.records.has(target) {
        return Ok(());
    }
    if is_ready(graph, target) {
        return resolve_ready(alloc, frames, graph, target);
    }
    Ok(())
}

// Resolves those of the targets whose dependencies are resolved when they are looked at.
pub(crate) fn pass(
    alloc: Global,
    frames: &Frames<'_>,
    graph: &mut Known<'_>,
    targets: &[Label],
) -> Result<(), AllocError>
    requires fit { IsFit frames.now graph.old.default.now graph.old.items }
    requires held { IsHeld (surroundings_of frames.now) graph.old.items graph.old.records }
    ensures step { OnOk result (IsStep frames.now graph.old.items targets.now graph.old.records graph.new.records) }
    ensures same { OnOk result ((graph.new.items ≡ graph.old.items) × (graph.new.default ≡ graph.old.default)) }
{
    for target in targets {
        try_resolve(alloc, frames, graph, target)?;
    }
    Ok(())
}
