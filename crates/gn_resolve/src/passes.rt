// Passes over the targets of a build resolve all of them.

ghost use Rattle.std.specs.Prelude.{◌≡◌, IfOk, IsOk, OnOk};
ghost use Rattle.gn_labelled.specs.Graphs.{shape_of};
ghost use Rattle.gn_labelled.specs.Index.{lent};
ghost use Rattle.gn_resolved_meant.specs.Laws.{IsClosed};
ghost use Rattle.gn_toolchains.specs.Frames.{surroundings as given, IsOver};
ghost use Rattle.gn_resolve.specs.Table.{AreIn};
ghost use Rattle.gn_resolve.specs.Steps.{IsFit, IsHeld, surroundings_of};
ghost use Rattle.gn_resolve.specs.Whole.{AllEnd, CanBeResolved, AreResolved};

use crate::levels::levels;
use crate::resolving::{are_in, pass};
use crate::table::{Known, Resolved};
use crate::together::resolve_levels;
use gn_items::Item;
use gn_labelled::{ItemGraph, ItemIndex};
use gn_labels::Label;
use gn_toolchains::{Frames, Surroundings};
use std::alloc::{AllocError, Global};
use std::thread::Threads;

// Resolves the targets: at each pass those whose paths of dependencies have one edge more. Where dependencies were resolved before
// those that depend on them, no pass is left.
fn complete(
    alloc: Global,
    frames: &Frames<'_>,
    graph: &mut Known<'_>,
    targets: &[Label],
) -> Result<(), AllocError>
    requires fit { IsFit frames.now graph.old.default.now graph.old.items }
    requires held { IsHeld (surroundings_of frames.now) graph.old.items graph.old.records }
    requires can { CanBeResolved frames.now graph.old.items targets.now }
    ensures { OnOk result (IsHeld (surroundings_of frames.now) graph.old.items graph.new.records × AreIn graph.new.records targets.now) }
{
    let turns = graph.items.items().len() + 1;
    for turn in 0..turns {
        if are_in(&graph.records, targets) {
            return Ok(());
        }
        pass(alloc, frames, graph, targets)?;
    }
    Ok(())
}

// Resolves the targets of a graph of which nothing is resolved.
fn resolve_in<R: Threads + Sync>(
    rt: &R,
    alloc: Global,
    frames: &Frames<'_>,
    graph: &mut Known<'_>,
    targets: &[Label],
) -> Result<(), AllocError>
    requires fit { IsFit frames.now graph.old.default.now graph.old.items }
    requires held { IsHeld (surroundings_of frames.now) graph.old.items graph.old.records }
    requires can { CanBeResolved frames.now graph.old.items targets.now }
    ensures { OnOk result (AreResolved (surroundings_of frames.now) graph.old.items targets.now graph.new.records) }
{
    let levels = levels(alloc, &graph.items, targets)?;
    resolve_levels(rt, alloc, frames, graph, levels.as_slice())?;
    complete(alloc, frames, graph, targets)
}

// What is kept of targets, where that has been made of all of them.
fn finished(done: Result<(), AllocError>, records: Resolved) -> Result<Resolved, AllocError>
    ensures { IfOk result (λ r. (r ≡ records) × IsOk done) }
{
    match done {
        Ok(()) => Ok(records),
        Err(error) => {
            drop(records);
            Err(error)
        }
    }
}

// What is kept of the targets of a graph.
fn resolved_in<R: Threads + Sync>(
    rt: &R,
    alloc: Global,
    frames: &Frames<'_>,
    mut graph: Known<'_>,
    targets: &[Label],
) -> Result<Resolved, AllocError>
    requires fit { IsFit frames.now graph.default.now graph.items }
    requires held { IsHeld (surroundings_of frames.now) graph.items graph.records }
    requires can { CanBeResolved frames.now graph.items targets.now }
    ensures { IfOk result (AreResolved (surroundings_of frames.now) graph.entry.items targets.now) }
{
    let done = resolve_in(rt, alloc, frames, &mut graph, targets);
    finished(done, graph.records)
}

/// The records of targets, by the items that a build defines and by what never changes for its targets. The list must have the
/// dependencies of each of its targets, and none of them may reach a cycle. Each target is resolved once.
pub fn resolve_all<'a, R: Threads + Sync>(
    rt: &R,
    alloc: Global,
    surroundings: Surroundings<'a>,
    frames: &Frames<'_>,
    items: &[&'a Item],
    targets: &[Label],
) -> Result<Resolved, AllocError>
    requires over { IsOver (given surroundings) (lent items.now) targets.now frames.now }
    requires closed { IsClosed (shape_of (lent items.now)) targets.now }
    requires ends { AllEnd (lent items.now) targets.now }
    ensures { IfOk result (AreResolved (given surroundings.entry) (lent items.now) targets.now) }
{
    let records = Resolved::with_room(alloc, targets.len())?;
    match ItemIndex::of(alloc, items) {
        Ok(index) => {
            let graph = ItemGraph {
                default: surroundings.default,
                items: index,
                records,
            };
            resolved_in(rt, alloc, frames, graph, targets)
        }
        Err(error) => {
            drop(records);
            Err(error)
        }
    }
}
