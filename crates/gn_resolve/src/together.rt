// Targets are resolved level by level of their dependencies, those of a large level by several threads.

ghost use Rattle.std.specs.Prelude.{◌≡◌, ◌<◌, ◌∷◌, [], IfOk, OnOk, length};
ghost use Rattle.gn_dependencies.specs.Shape.{all_deps};
ghost use Rattle.gn_labelled.specs.Graphs.{shape_of};
ghost use Rattle.gn_records.specs.Around.{around};
ghost use Rattle.gn_resolve.specs.Table.{AreIn};
ghost use Rattle.gn_resolve.specs.Steps.{surroundings_of, surroundings_in, IsFit, IsAround, IsHeld};
ghost use Rattle.gn_resolve.specs.Putting.{CanBePut, AllCanBePut, TakesAll};

use crate::making::resolve;
use crate::resolving::is_ready;
use crate::shared::graphs_are_shared;
use crate::table::{Entry, Known, Resolved};
use gn_beside::deal;
use gn_labels::Label;
use gn_records::Context;
use gn_toolchains::Frames;
use std::alloc::{AllocError, Global};
use std::thread::Threads;

// How many targets a thread takes at once.
const PIECE: usize = 2;

// What is kept of a target, with its label.
fn labelled_entry(
    alloc: Global,
    context: &Context<'_>,
    graph: &Known<'_>,
    target: &Label,
) -> Result<Option<(Label, Entry)>, AllocError>
    requires around { IsAround graph.now.default.now graph.now.items target.now.toolchain (around context.now) }
    requires held { IsHeld (surroundings_in (around context.now)) graph.now.items graph.now.records }
    requires ready { AreIn graph.now.records (all_deps (shape_of graph.now.items) target.now) }
    ensures { IfOk result (CanBePut (surroundings_in (around context.now)) graph.now.items graph.now.records) }
{
    let label = target.copy(alloc)?;
    let entry = resolve(alloc, context, graph, target)?;
    Ok(Some((label, entry)))
}

// The same where what never changes for it is known.
fn framed_entry(
    alloc: Global,
    frames: &Frames<'_>,
    graph: &Known<'_>,
    target: &Label,
) -> Result<Option<(Label, Entry)>, AllocError>
    requires fit { IsFit frames.now graph.now.default.now graph.now.items }
    requires held { IsHeld (surroundings_of frames.now) graph.now.items graph.now.records }
    requires ready { AreIn graph.now.records (all_deps (shape_of graph.now.items) target.now) }
    ensures { IfOk result (CanBePut (surroundings_of frames.now) graph.now.items graph.now.records) }
{
    match frames.context(&target.toolchain) {
        None => Ok(None),
        Some(context) => labelled_entry(alloc, &context, graph, target),
    }
}

// The same where its dependencies are resolved.
fn ready_entry(
    alloc: Global,
    frames: &Frames<'_>,
    graph: &Known<'_>,
    target: &Label,
) -> Result<Option<(Label, Entry)>, AllocError>
    requires fit { IsFit frames.now graph.now.default.now graph.now.items }
    requires held { IsHeld (surroundings_of frames.now) graph.now.items graph.now.records }
    ensures { IfOk result (CanBePut (surroundings_of frames.now) graph.now.items graph.now.records) }
{
    if is_ready(graph, target) {
        return framed_entry(alloc, frames, graph, target);
    }
    Ok(None)
}

// What is kept of those of the targets whose dependencies are resolved. Several threads make it, each that of the next targets that
// none has taken.
fn ready_entries<R: Threads + Sync>(
    rt: &R,
    alloc: Global,
    frames: &Frames<'_>,
    graph: &Known<'_>,
    targets: &[Label],
) -> Result<Vec<Option<(Label, Entry)>>, AllocError>
    requires fit { IsFit frames.now graph.now.default.now graph.now.items }
    requires held { IsHeld (surroundings_of frames.now) graph.now.items graph.now.records }
    ensures { IfOk result (λ made. AllCanBePut (surroundings_of frames.now) graph.now.items graph.now.records made.items) }
{
    graphs_are_shared();
    let make = |place: usize| -> Result<Option<(Label, Entry)>, AllocError>
        requires fit { IsFit frames.now graph.now.default.now graph.now.items }
        requires held { IsHeld (surroundings_of frames.now) graph.now.items graph.now.records }
        requires within { place < length targets.now }
        ensures { IfOk result (CanBePut (surroundings_of frames.entry.now) graph.entry.now.items graph.entry.now.records) }
    { ready_entry(alloc, frames, graph, &targets[place]) };
    deal(rt, alloc, targets.len(), PIECE, &make)
}

// Puts what is kept of a target with the others, if something is.
fn put_one(records: &mut Resolved, made: Option<(Label, Entry)>) -> Result<(), AllocError>
    ensures { OnOk result (TakesAll records.old records.new (made ∷ [])) }
{
    match made {
        None => Ok(()),
        Some((label, entry)) => records.put(label, entry),
    }
}

// Puts what is kept of targets with the others.
fn put_all(records: &mut Resolved, made: Vec<Option<(Label, Entry)>>) -> Result<(), AllocError>
    ensures { OnOk result (TakesAll records.old records.new made.items) }
{
    for one in made {
        put_one(records, one)?;
    }
    Ok(())
}

// Resolves those of the targets whose dependencies are resolved, all at once.
fn resolve_together<R: Threads + Sync>(
    rt: &R,
    alloc: Global,
    frames: &Frames<'_>,
    graph: &mut Known<'_>,
    targets: &[Label],
) -> Result<(), AllocError>
    requires fit { IsFit frames.now graph.old.default.now graph.old.items }
    requires held { IsHeld (surroundings_of frames.now) graph.old.items graph.old.records }
    ensures held { OnOk result (IsHeld (surroundings_of frames.now) graph.old.items graph.new.records) }
    ensures same { OnOk result ((graph.new.items ≡ graph.old.items) × (graph.new.default ≡ graph.old.default)) }
{
    let made = ready_entries(rt, alloc, frames, graph, targets)?;
    put_all(&mut graph.records, made)
}

/// Resolves the targets of levels whose dependencies are resolved in the levels before.
pub(crate) fn resolve_levels<R: Threads + Sync>(
    rt: &R,
    alloc: Global,
    frames: &Frames<'_>,
    graph: &mut Known<'_>,
    levels: &[Vec<Label>],
) -> Result<(), AllocError>
    requires fit { IsFit frames.now graph.old.default.now graph.old.items }
    requires held { IsHeld (surroundings_of frames.now) graph.old.items graph.old.records }
    ensures held { OnOk result (IsHeld (surroundings_of frames.now) graph.old.items graph.new.records) }
    ensures same { OnOk result ((graph.new.items ≡ graph.old.items) × (graph.new.default ≡ graph.old.default)) }
{
    for level in levels {
        resolve_together(rt, alloc, frames, graph, level.as_slice())?;
    }
    Ok(())
}
