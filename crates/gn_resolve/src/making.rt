// What is kept of a target whose dependencies are resolved.

ghost use Rattle.std.specs.Prelude.{◌≡◌, IfOk};
ghost use Rattle.gn_dependencies.specs.Configurations.{AreRecorded};
ghost use Rattle.gn_dependencies.specs.Shape.{all_deps};
ghost use Rattle.gn_labelled.specs.Graphs.{shape_of};
ghost use Rattle.gn_records.specs.Around.{around, fields_of};
ghost use Rattle.gn_records.specs.Records.{record_of};
ghost use Rattle.gn_resolve.specs.Table.{handed_in, unboxed, dones_from, AreIn, IsLinked, IsRecordOf, IsKnown, IsMade};
ghost use Rattle.gn_resolve.specs.Steps.{surroundings_in, IsAround, IsRight, IsHeld};

use crate::configs::configs;
use crate::dones::{dones, dones_of};
use crate::hard::hard;
use crate::laws::what_is_made_is_right;
use crate::libraries::libraries;
use crate::table::{Entry, Known, Resolved};
use gn_chains::{pushed, pushed_public};
use gn_define::Fields;
use gn_items::Item;
use gn_labelled::ItemGraph;
use gn_labels::Label;
use gn_paths::Texts;
use gn_records::{Context, Inherited, Record, record_of};
use std::alloc::{AllocError, Global};

// The record of the target of an item, by the fields of its configurations, by what it takes from libraries, and by the done files
// for which its objects wait.
fn record_by(
    alloc: Global,
    context: &Context<'_>,
    graph: &Known<'_>,
    item: &Item,
    configs: &[&Fields],
    inherited: &Inherited,
    target: &Label,
    hard: &Texts,
) -> Result<Record, AllocError>
    ensures { IfOk result (λ k. k
        ≡ record_of (around context.now) item.now (fields_of configs.now) inherited.now (dones_from graph.now.items graph.now.records target.now) hard.now) }
{
    let dones = dones(alloc, graph, target)?;
    record_of(alloc, context, item, configs, inherited, dones, hard)
}

// The same, with what it takes from libraries.
fn record_linked(
    alloc: Global,
    context: &Context<'_>,
    graph: &Known<'_>,
    item: &Item,
    configs: &[&Fields],
    target: &Label,
    hard: &Texts,
) -> Result<Record, AllocError>
    requires { AreRecorded (shape_of graph.now.items) (handed_in graph.now.records) target.now }
    ensures { IfOk result (IsLinked (around context.now) graph.now.default.now graph.now.items graph.now.records target.now (fields_of configs.now) hard.now item.now) }
{
    let inherited = libraries(alloc, graph, target)?;
    let record = record_by(
        alloc, context, graph, item, configs, &inherited, target, hard,
    );
    drop(inherited);
    record
}

// The record of the target of an item, by the actions and copies for which its objects wait.
fn record_from(
    alloc: Global,
    context: &Context<'_>,
    graph: &Known<'_>,
    target: &Label,
    item: &Item,
    hard: &[Label],
) -> Result<Record, AllocError>
    requires { AreRecorded (shape_of graph.now.items) (handed_in graph.now.records) target.now }
    ensures { IfOk result (IsRecordOf (around context.now) graph.now.default.now graph.now.items graph.now.records target.now hard.now item.now) }
{
    let configs = configs(alloc, graph, target)?;
    let hard = dones_of(alloc, &graph.records, hard)?;
    record_linked(
        alloc,
        context,
        graph,
        item,
        configs.as_slice(),
        target,
        &hard,
    )
}

// The same where there is an item.
fn known(
    alloc: Global,
    context: &Context<'_>,
    graph: &Known<'_>,
    target: &Label,
    hard: &[Label],
) -> Result<Option<Box<Record>>, AllocError>
    requires { AreRecorded (shape_of graph.now.items) (handed_in graph.now.records) target.now }
    ensures { IfOk result (λ known. IsKnown (around context.now) graph.now.default.now graph.now.items graph.now.records target.now hard.now (unboxed known)) }
{
    match graph.items.item(target) {
        None => Ok(None),
        Some(item) => {
            let made = record_from(alloc, context, graph, target, item, hard)?;
            let record = Box::new(alloc, made)?;
            Ok(Some(record))
        }
    }
}

// What is kept of a target.
fn made(
    alloc: Global,
    context: &Context<'_>,
    graph: &Known<'_>,
    target: &Label,
) -> Result<Entry, AllocError>
    requires { AreRecorded (shape_of graph.now.items) (handed_in graph.now.records) target.now }
    ensures { IfOk result (IsMade (around context.now) graph.now.default.now graph.now.items graph.now.records target.now) }
{
    let pushed = pushed(alloc, target, graph)?;
    let pushed_public = pushed_public(alloc, target, graph)?;
    let hard = hard(alloc, graph, target)?;
    let known = known(alloc, context, graph, target, hard.as_slice())?;
    Ok(Entry {
        pushed,
        pushed_public,
        hard,
        known,
    })
}

/// Resolves one target: what is kept of it is the configurations that it hands on, the actions and copies to which it leads, and its
/// record, as the definitions say them of all items of the build. `context` is what never changes for the targets of its toolchain.
/// What is kept of other targets must be right, and all dependencies of this one must be among them; so it reaches no cycle, and it
/// doesn't matter which others are there. The only error is want of memory.
pub fn resolve(
    alloc: Global,
    context: &Context<'_>,
    graph: &ItemGraph<'_, Resolved>,
    target: &Label,
) -> Result<Entry, AllocError>
    requires around { IsAround graph.now.default.now graph.now.items target.now.toolchain (around context.now) }
    requires held { IsHeld (surroundings_in (around context.now)) graph.now.items graph.now.records }
    requires ready { AreIn graph.now.records (all_deps (shape_of graph.now.items) target.now) }
    ensures { IfOk result (IsRight (surroundings_in (around context.now)) graph.now.items target.now) }
{
    what_is_made_is_right();
    made(alloc, context, graph, target)
}
