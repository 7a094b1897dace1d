// The fault that is told of the targets of a build.

ghost use Rattle.std.specs.Prelude.{◌≡◌, [], Some, IfOk, OnOk, map, option_map};
ghost use Rattle.gn_records.specs.Around.{around};
ghost use Rattle.gn_toolchains.specs.Frames.{surroundings as given, known_of};
ghost use Rattle.gn_build_faults.specs.Outputs.{lent_texts, with_each, output_fault as output_meant};
ghost use Rattle.gn_build_faults.specs.Faults.{first_of, fault_among, target_fault};
ghost use Rattle.gn_build_faults.specs.Settling.{AreMarked};
ghost use Rattle.gn_build_faults.specs.Examined.{examined_state, fault_with_outputs, with_examined, fault_of_examined};

use crate::examined::{Examined, examine_all};
use crate::first::first_of;
use crate::outputs::output_fault;
use crate::settling::SettledItems;
use gn_faults::Fault;
use gn_labelled::ItemIndex;
use gn_labels::Label;
use gn_paths::Text;
use gn_records::Context;
use gn_toolchains::{Frames, Surroundings};
use indexmap::IndexSet;
use std::alloc::{AllocError, Global};
use std::mem::forget;
use std::thread::Threads;

// A copy of a fault, if there is one.
fn copied(alloc: Global, fault: Option<&Fault>) -> Result<Option<Fault>, AllocError>
    ensures { IfOk result (λ copy. copy ≡ option_map (λ fault. fault.now) fault.entry) }
{
    match fault {
        None => Ok(None),
        Some(fault) => Ok(Some(fault.copy(alloc)?)),
    }
}

// The first fault of a target with what it has by itself, where something is known around it. Its outputs are seen.
fn fault_around<'a>(
    alloc: Global,
    default: &Text,
    items: &ItemIndex<'_>,
    context: &Context<'_>,
    seen: &mut IndexSet<&'a Text>,
    found: &'a Examined<'_>,
) -> Result<Option<Fault>, AllocError>
    ensures fault { IfOk result (λ fault. fault
        ≡ fault_with_outputs default.now items.now (Some (around context.now)) (lent_texts seen.old.keys) (examined_state found.now)) }
    ensures seen { OnOk result (lent_texts seen.new.keys ≡ with_each (lent_texts seen.old.keys) found.now.outputs) }
{
    let twice = output_fault(
        alloc,
        default,
        items,
        context.build,
        seen,
        found.outputs.as_slice(),
        found.target,
    )?;
    let fault = copied(alloc, found.fault.as_ref())?;
    Ok(first_of(fault, twice))
}

// The same, where something is known around it.
fn fault_at<'a>(
    alloc: Global,
    default: &Text,
    items: &ItemIndex<'_>,
    context: Option<Context<'_>>,
    seen: &mut IndexSet<&'a Text>,
    found: &'a Examined<'_>,
) -> Result<Option<Fault>, AllocError>
    ensures fault { IfOk result (λ fault. fault
        ≡ fault_with_outputs default.now items.now (option_map around context.entry) (lent_texts seen.old.keys) (examined_state found.now)) }
    ensures seen { OnOk result (lent_texts seen.new.keys
        ≡ with_examined (option_map around context.entry) (lent_texts seen.old.keys) (examined_state found.now)) }
{
    match context {
        None => Ok(None),
        Some(context) => fault_around(alloc, default, items, &context, seen, found),
    }
}

// The same by the frames of toolchains.
fn framed_fault<'a>(
    alloc: Global,
    default: &Text,
    items: &ItemIndex<'_>,
    frames: &Frames<'_>,
    seen: &mut IndexSet<&'a Text>,
    found: &'a Examined<'_>,
) -> Result<Option<Fault>, AllocError>
    ensures fault { IfOk result (λ fault. fault
        ≡ fault_with_outputs default.now items.now (known_of frames.now found.now.target.now.toolchain) (lent_texts seen.old.keys) (examined_state found.now)) }
    ensures seen { OnOk result (lent_texts seen.new.keys
        ≡ with_examined (known_of frames.now found.now.target.now.toolchain) (lent_texts seen.old.keys) (examined_state found.now)) }
{
    let context = frames.context(&found.target.toolchain);
    fault_at(alloc, default, items, context, seen, found)
}

// The first fault of the first of these targets that has one, with what each has by itself, by the frames of toolchains, where these
// outputs were seen.
fn fault_behind<'a>(
    alloc: Global,
    default: &Text,
    items: &ItemIndex<'_>,
    frames: &Frames<'_>,
    seen: &mut IndexSet<&'a Text>,
    examined: &'a [Examined<'_>],
) -> Result<Option<Fault>, AllocError>
    ensures { IfOk result (λ fault. fault ≡ fault_of_examined default.now items.now (known_of frames.now) (lent_texts seen.old.keys) (map examined_state examined.now)) }
{
    for found in examined {
        if let Some(fault) = framed_fault(alloc, default, items, frames, seen, found)? {
            return Ok(Some(fault));
        }
    }
    Ok(None)
}

// The same, where no outputs were seen.
fn fault_of_examined(
    alloc: Global,
    default: &Text,
    items: &ItemIndex<'_>,
    frames: &Frames<'_>,
    examined: &[Examined<'_>],
) -> Result<Option<Fault>, AllocError>
    ensures { IfOk result (λ fault. fault ≡ fault_of_examined default.now items.now (known_of frames.now) [] (map examined_state examined.now)) }
{
    let mut seen = IndexSet::new(alloc);
    let fault = fault_behind(alloc, default, items, frames, &mut seen, examined);
    drop(seen);
    fault
}

// The first fault of the first of these targets that has one, by the frames of toolchains and by which items reach no cycle. What each
// target has by itself isn't let go: to do so piece by piece takes its time, and a run keeps its memory until the process ends.
fn fault_among<R: Threads + Sync>(
    rt: &R,
    alloc: Global,
    default: &Text,
    items: &ItemIndex<'_>,
    settled: &SettledItems,
    frames: &Frames<'_>,
    targets: &[Label],
) -> Result<Option<Fault>, AllocError>
    requires { AreMarked items.now settled.now.marks.items }
    ensures { IfOk result (λ fault. fault ≡ fault_among default.now items.now (known_of frames.now) [] targets.now) }
{
    let examined = examine_all(rt, alloc, default, items, settled, frames, targets)?;
    let fault = fault_of_examined(alloc, default, items, frames, examined.as_slice());
    forget(examined);
    fault
}

/// The fault that is told of targets, by what never changes in the build, the items that it defines, which of them reach no cycle, and
/// these targets in label order: the first fault of the first of them that has one. A target's faults go by code: texts of tools that
/// are no paths, labels that it names and no item has, tools that it needs and its toolchain lacks, the other faults of the graph, and
/// outputs that it makes and a target before it makes too. None comes exactly where none of them has a fault.
pub(crate) fn target_fault<'a, R: Threads + Sync>(
    rt: &R,
    alloc: Global,
    surroundings: Surroundings<'a>,
    items: &ItemIndex<'_>,
    settled: &SettledItems,
    targets: &[Label],
) -> Result<Option<Fault>, AllocError>
    requires { AreMarked items.now settled.now.marks.items }
    ensures { IfOk result (λ fault. fault ≡ target_fault (given surroundings.entry) items.now targets.now) }
{
    let frames = Frames::of(alloc, surroundings, items.items(), targets)?;
    let fault = fault_among(
        rt,
        alloc,
        surroundings.default,
        items,
        settled,
        &frames,
        targets,
    );
    drop(frames);
    fault
}
