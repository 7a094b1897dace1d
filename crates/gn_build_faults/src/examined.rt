// What targets have by themselves, for which several threads look.

ghost use Rattle.std.specs.Prelude.{◌≡◌, ◌<◌, ◌∷◌, [], None, IfOk, length, map, option_map, slice_index_or};
ghost use Rattle.gn_cycles.specs.Settled.{AreSettled};
ghost use Rattle.gn_labelled.specs.Graphs.{shape_of};
ghost use Rattle.gn_labels.specs.declared.label.Label.{Label as Name};
ghost use Rattle.gn_records.specs.Around.{around};
ghost use Rattle.gn_toolchains.specs.Frames.{known_of};
ghost use Rattle.gn_build_faults.specs.Tools.{tool_fault as tool_meant};
ghost use Rattle.gn_build_faults.specs.Faults.{graph_fault, is_unresolved, with_tool, own_fault};
ghost use Rattle.gn_build_faults.specs.Settling.{AreMarked};
ghost use Rattle.gn_build_faults.specs.Examined.{examined_state, examined_at, examined_of};

use crate::first::first_of;
use crate::outputs::made_around;
use crate::paths::path_fault;
use crate::settling::{SettledItems, alone_settled};
use crate::shared::graphs_are_shared;
use crate::tools::tool_fault;
use gn_beside::deal;
use gn_chains::Firsts;
use gn_faults::{Code, Fault};
use gn_graph_faults::least_fault;
use gn_graph_meant::{the_labels_of_items_are_enough, there_is_one_least_fault};
use gn_labelled::{ItemIndex, TargetGraph};
use gn_labels::Label;
use gn_paths::{Text, Texts};
use gn_records::Context;
use gn_toolchains::Frames;
use std::alloc::{AllocError, Global};
use std::slice;
use std::thread::Threads;

// How many targets a thread takes at once.
const PIECE: usize = 4;

/// What a target has by itself: its first fault besides those of its outputs, and what it makes, as the build directory sees it.
#[derive(Drop)]
pub(crate) struct Examined<'a> {
    /// The target.
    pub(crate) target: &'a Label,
    /// Its first fault besides those of its outputs.
    pub(crate) fault: Option<Fault>,
    /// What it makes.
    pub(crate) outputs: Texts,
}

// The first fault that the rules of the graph find in these targets.
fn graph_fault(
    alloc: Global,
    graph: &TargetGraph<'_, '_>,
    settled: &Firsts,
    targets: &[Label],
) -> Result<Option<Fault>, AllocError>
    requires { AreSettled (shape_of graph.now.items.now) settled.now }
    ensures { IfOk result (λ fault. fault ≡ graph_fault graph.now.default.now graph.now.items.now targets.now) }
{
    the_labels_of_items_are_enough();
    there_is_one_least_fault();
    least_fault(alloc, targets, graph, settled)
}

// Whether it is the code of what isn't defined.
fn is_unresolved(code: Code) -> bool
    ensures { result ≡ is_unresolved code }
{
    matches!(code, Code::Unresolved)
}

// A tool that is lacking is told behind labels that name nothing, and before all other faults of the graph.
fn with_tool(fault: Option<Fault>, tool: Option<Fault>) -> Option<Fault>
    ensures { result ≡ with_tool fault tool }
{
    match fault {
        None => tool,
        Some(fault) => {
            if is_unresolved(fault.code) {
                Some(fault)
            } else {
                first_of(tool, Some(fault))
            }
        }
    }
}

// The first fault of a target by the graph and the tools of its toolchain.
fn linked_fault(
    alloc: Global,
    graph: &TargetGraph<'_, '_>,
    settled: &Firsts,
    context: &Context<'_>,
    target: &Label,
) -> Result<Option<Fault>, AllocError>
    requires { AreSettled (shape_of graph.now.items.now) settled.now }
    ensures { IfOk result (λ fault. fault ≡ with_tool (graph_fault graph.now.default.now graph.now.items.now (target.now ∷ []))
        (tool_meant graph.now.default.now graph.now.items.now (around context.now).tools target.now)) }
{
    let fault = graph_fault(alloc, graph, settled, slice::from_ref(target))?;
    let tool = tool_fault(alloc, graph, context.tools.as_slice(), target)?;
    Ok(with_tool(fault, tool))
}

// The first fault of a target besides those of its outputs.
fn own_fault(
    alloc: Global,
    graph: &TargetGraph<'_, '_>,
    settled: &Firsts,
    context: &Context<'_>,
    target: &Label,
) -> Result<Option<Fault>, AllocError>
    requires { AreSettled (shape_of graph.now.items.now) settled.now }
    ensures { IfOk result (λ fault. fault ≡ own_fault graph.now.default.now graph.now.items.now (around context.now) target.now) }
{
    match path_fault(alloc, graph, context, target)? {
        Some(fault) => Ok(Some(fault)),
        None => linked_fault(alloc, graph, settled, context, target),
    }
}

// What a target has by itself around which this is known.
fn examine_around<'a>(
    alloc: Global,
    graph: &TargetGraph<'_, '_>,
    settled: &Firsts,
    context: &Context<'_>,
    target: &'a Label,
) -> Result<Examined<'a>, AllocError>
    requires { AreSettled (shape_of graph.now.items.now) settled.now }
    ensures { IfOk result (λ found. examined_state found ≡ examined_at graph.now.default.now graph.now.items.now (Some (around context.now)) target.now) }
{
    let fault = own_fault(alloc, graph, settled, context, target)?;
    let outputs = made_around(alloc, context, graph.item(target))?;
    Ok(Examined {
        target,
        fault,
        outputs,
    })
}

// What a target has by itself around which nothing is known.
fn examined_alone<'a>(alloc: Global, target: &'a Label) -> Examined<'a>
    ensures { examined_state result ≡ examined_at [] [] None target.now }
{
    Examined {
        target,
        fault: None,
        outputs: Texts::new(alloc),
    }
}

// What a target has by itself, where something is known around it.
fn examine_at<'a>(
    alloc: Global,
    graph: &TargetGraph<'_, '_>,
    settled: &Firsts,
    context: Option<Context<'_>>,
    target: &'a Label,
) -> Result<Examined<'a>, AllocError>
    requires { AreSettled (shape_of graph.now.items.now) settled.now }
    ensures { IfOk result (λ found. examined_state found ≡ examined_at graph.now.default.now graph.now.items.now (option_map around context.entry) target.now) }
{
    match context {
        None => Ok(examined_alone(alloc, target)),
        Some(context) => examine_around(alloc, graph, settled, &context, target),
    }
}

// What a target has by itself, by the frames of toolchains, in the graph beside it.
fn examine_beside<'a>(
    alloc: Global,
    graph: &TargetGraph<'_, '_>,
    settled: &Firsts,
    frames: &Frames<'_>,
    target: &'a Label,
) -> Result<Examined<'a>, AllocError>
    requires { AreSettled (shape_of graph.now.items.now) settled.now }
    ensures { IfOk result (λ found. examined_state found ≡ examined_of graph.now.default.now graph.now.items.now (known_of frames.now) target.now) }
{
    let context = frames.context(&target.toolchain);
    examine_at(alloc, graph, settled, context, target)
}

// What a target has by itself, by the items and by which of them reach no cycle.
fn examine<'a>(
    alloc: Global,
    default: &Text,
    items: &ItemIndex<'_>,
    settled: &SettledItems,
    frames: &Frames<'_>,
    target: &'a Label,
) -> Result<Examined<'a>, AllocError>
    requires { AreMarked items.now settled.now.marks.items }
    ensures { IfOk result (λ found. examined_state found ≡ examined_of default.now items.now (known_of frames.now) target.now) }
{
    let free = alone_settled(alloc, items, settled, target)?;
    let graph = TargetGraph::beside(default, items, target);
    let found = examine_beside(alloc, &graph, &free, frames, target);
    drop(free);
    found
}

/// What these targets have by themselves, in their order, by the frames of toolchains and by which items reach no cycle. Several
/// threads look for it, each for that of the next targets that none has taken.
pub(crate) fn examine_all<'a, R: Threads + Sync>(
    rt: &R,
    alloc: Global,
    default: &Text,
    items: &ItemIndex<'_>,
    settled: &SettledItems,
    frames: &Frames<'_>,
    targets: &'a [Label],
) -> Result<Vec<Examined<'a>>, AllocError>
    requires { AreMarked items.now settled.now.marks.items }
    ensures { IfOk result (λ examined. map examined_state examined.items ≡ map (examined_of default.now items.now (known_of frames.now)) targets.now) }
{
    graphs_are_shared();
    let make = |place: usize| -> Result<Examined<'_>, AllocError>
        requires marked { AreMarked items.now settled.now.marks.items }
        requires within { place < length targets.now }
        ensures { (other : Name) → IfOk result (λ found. examined_state found ≡ examined_of default.entry.now items.entry.now (known_of frames.entry.now) (slice_index_or targets.entry.now place other)) }
    { examine(alloc, default, items, settled, frames, &targets[place]) };
    deal(rt, alloc, targets.len(), PIECE, &make)
}
