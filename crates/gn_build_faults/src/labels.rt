// The fault that is told of the labels of a build: of targets, and of the toolchains that they use.

ghost use Rattle.std.specs.Prelude.{◌≡◌, ◌++◌, ◌∷◌, [], true, IfOk, OnOk, option_map};
ghost use Rattle.gn_toolchains.specs.Frames.{surroundings as given};
ghost use Rattle.gn_build_faults.specs.Faults.{target_fault};
ghost use Rattle.gn_build_faults.specs.Labels.{those_before, beside_toolchain, fault_of_labels};
ghost use Rattle.gn_build_faults.specs.Reaching.{targets_of};
ghost use Rattle.gn_build_faults.specs.Whole.{those_or};
ghost use Rattle.gn_build_faults.specs.Settling.{AreMarked};

use crate::fault::target_fault;
use crate::first::first_of;
use crate::foreseen::{Foreseen, foresee, settled_labels};
use crate::reaching::targets_unless_whole;
use crate::settling::SettledItems;
use gn_faults::Fault;
use gn_labelled::ItemIndex;
use gn_labels::Label;
use gn_paths::Text;
use gn_toolchain_faults::{ToolchainFault, toolchain_fault};
use gn_toolchains::Surroundings;
use std::alloc::{AllocError, Global};
use std::thread::Threads;

// Puts a copy of a label behind others.
fn push_copy(alloc: Global, labels: &mut Vec<Label>, label: &Label) -> Result<(), AllocError>
    ensures { OnOk result (labels.new.items ≡ labels.old.items ++ label.now ∷ []) }
{
    labels.reserve(1)?;
    let label = label.copy(alloc)?;
    labels.push_reserved(label);
    Ok(())
}

// Puts copies of the targets that stand before a label behind others.
fn add_before(
    alloc: Global,
    before: &mut Vec<Label>,
    default: &Text,
    label: &Label,
    targets: &[Label],
) -> Result<(), AllocError>
    ensures { OnOk result (before.new.items ≡ before.old.items ++ those_before default.now label.now targets.now) }
{
    for target in targets {
        if target.before(label, default) {
            push_copy(alloc, before, target)?;
        }
    }
    Ok(())
}

// The targets that stand before a label.
fn those_before(
    alloc: Global,
    default: &Text,
    label: &Label,
    targets: &[Label],
) -> Result<Vec<Label>, AllocError>
    ensures { IfOk result (λ before. before.items ≡ those_before default.now label.now targets.now) }
{
    let mut before = Vec::new(alloc);
    if let Err(error) = add_before(alloc, &mut before, default, label, targets) {
        drop(before);
        return Err(error);
    }
    Ok(before)
}

// The first fault of the targets before a toolchain's label.
fn fault_before<'a, R: Threads + Sync>(
    rt: &R,
    alloc: Global,
    surroundings: Surroundings<'a>,
    items: &'a ItemIndex<'_>,
    settled: &SettledItems,
    targets: &[Label],
    label: &Label,
) -> Result<Option<Fault>, AllocError>
    requires { AreMarked items.now settled.now.marks.items }
    ensures { IfOk result (λ fault. fault ≡ target_fault (given surroundings.entry) items.now
        (those_before (given surroundings.entry).default label.now targets.now)) }
{
    let before = those_before(alloc, surroundings.default, label, targets)?;
    let fault = target_fault(rt, alloc, surroundings, items, settled, before.as_slice());
    drop(before);
    fault
}

// The first fault of the targets before a toolchain, or else that of the toolchain.
fn up_to<'a, R: Threads + Sync>(
    rt: &R,
    alloc: Global,
    surroundings: Surroundings<'a>,
    items: &'a ItemIndex<'_>,
    settled: &SettledItems,
    targets: &[Label],
    told: ToolchainFault,
) -> Result<Option<Fault>, AllocError>
    requires { AreMarked items.now settled.now.marks.items }
    ensures { IfOk result (λ fault. fault ≡ beside_toolchain (given surroundings.entry) items.now targets.now (Some told)) }
{
    let ToolchainFault { label, fault } = told;
    let first = fault_before(rt, alloc, surroundings, items, settled, targets, &label);
    drop(label);
    match first {
        Ok(first) => Ok(first_of(first, Some(fault))),
        Err(error) => {
            drop(fault);
            Err(error)
        }
    }
}

// The first fault of targets and of a toolchain, if one has a fault.
fn beside_toolchain<'a, R: Threads + Sync>(
    rt: &R,
    alloc: Global,
    surroundings: Surroundings<'a>,
    items: &'a ItemIndex<'_>,
    settled: &SettledItems,
    targets: &[Label],
    told: Option<ToolchainFault>,
) -> Result<Option<Fault>, AllocError>
    requires { AreMarked items.now settled.now.marks.items }
    ensures { IfOk result (λ fault. fault ≡ beside_toolchain (given surroundings.entry) items.now targets.now told) }
{
    match told {
        None => target_fault(rt, alloc, surroundings, items, settled, targets),
        Some(told) => up_to(rt, alloc, surroundings, items, settled, targets, told),
    }
}

// The fault that is told of these targets, in label order, and of the toolchains that they use, by which items reach no cycle.
#[tactic(auto, unfolding(crate::specs::Labels::fault_of_labels))]
fn fault_of_settled<'a, R: Threads + Sync>(
    rt: &R,
    alloc: Global,
    surroundings: Surroundings<'a>,
    items: &'a ItemIndex<'_>,
    settled: &SettledItems,
    targets: &[Label],
) -> Result<Option<Fault>, AllocError>
    requires { AreMarked items.now settled.now.marks.items }
    ensures { IfOk result (λ fault. fault ≡ fault_of_labels (given surroundings.entry) items.now targets.now) }
{
    let told = toolchain_fault(alloc, surroundings, items, targets)?;
    beside_toolchain(rt, alloc, surroundings, items, settled, targets, told)
}

/// The fault that is told of these targets, in label order, and of the toolchains that they use, by what never changes in the build and
/// the items that it defines: the first fault of the first label that has one. Of a target that is told goes by code: texts of tools that
/// are no paths, labels that it names and no item has, tools that it needs and its toolchain lacks, the other faults of the graph, and
/// outputs that a target before it makes too; of a toolchain, pools of its tools, and then its name. None comes exactly where there is none.
/// What is found of each target, and the places that are looked up, aren't given back to the allocator: a call keeps that memory until the
/// process ends.
pub fn fault_of_labels<'a, R: Threads + Sync>(
    rt: &R,
    alloc: Global,
    surroundings: Surroundings<'a>,
    items: &'a ItemIndex<'_>,
    targets: &[Label],
) -> Result<Option<Fault>, AllocError>
    ensures { IfOk result (λ fault. fault ≡ fault_of_labels (given surroundings.entry) items.now targets.now) }
{
    let settled = settled_labels(rt, alloc, items, targets)?;
    let fault = fault_of_settled(rt, alloc, surroundings, items, &settled, targets);
    drop(settled);
    fault
}

// The targets, by those that are generated and by others where these aren't all of them.
fn those_or<'a>(generated: &'a [Label], others: &'a Option<Vec<Label>>) -> &'a [Label]
    ensures { result.now ≡ those_or generated.now (option_map (λ targets. targets.items) others.now) }
{
    match others {
        None => generated,
        Some(targets) => targets.as_slice(),
    }
}

/// What is told of the targets that are generated and of all that dependencies lead to from them.
#[derive(Drop)]
pub struct JudgedTargets {
    /// The fault that is told of them, if there is one.
    pub fault: Option<Fault>,
    /// These targets, in label order; None where they are just those that are generated, as it is mostly, and these stand in label order.
    pub others: Option<Vec<Label>>,
}

// What is told of them, by what is foreseen of those that are generated.
fn judge_foreseen<'a, R: Threads + Sync>(
    rt: &R,
    alloc: Global,
    surroundings: Surroundings<'a>,
    items: &'a ItemIndex<'_>,
    foreseen: &Foreseen,
    generated: &[Label],
) -> Result<JudgedTargets, AllocError>
    requires whole { foreseen.now.is_whole ≡ true → generated.now ≡ targets_of (given surroundings).default items.now generated.now }
    requires settled { AreMarked items.now foreseen.now.settled.marks.items }
    ensures fault { IfOk result (λ judged. judged.fault ≡ fault_of_labels (given surroundings.entry) items.now (targets_of (given surroundings.entry).default items.now generated.now)) }
    ensures others { IfOk result (λ judged. those_or generated.now (option_map (λ targets. targets.items) judged.others) ≡ targets_of (given surroundings.entry).default items.now generated.now) }
{
    let others = targets_unless_whole(
        alloc,
        surroundings.default,
        items,
        foreseen.is_whole,
        generated,
    )?;
    let targets = those_or(generated, &others);
    match fault_of_settled(rt, alloc, surroundings, items, &foreseen.settled, targets) {
        Ok(fault) => Ok(JudgedTargets { fault, others }),
        Err(error) => {
            drop(others);
            Err(error)
        }
    }
}

/// What is told of the targets that are generated and of all that dependencies lead to from them: the fault, as it is told of labels, by
/// what never changes in the build and the items that it defines, and which targets these are. It keeps memory as `fault_of_labels` does.
pub fn judge_generated<'a, R: Threads + Sync>(
    rt: &R,
    alloc: Global,
    surroundings: Surroundings<'a>,
    items: &'a ItemIndex<'_>,
    generated: &[Label],
) -> Result<JudgedTargets, AllocError>
    ensures fault { IfOk result (λ judged. judged.fault ≡ fault_of_labels (given surroundings.entry) items.now (targets_of (given surroundings.entry).default items.now generated.now)) }
    ensures others { IfOk result (λ judged. those_or generated.now (option_map (λ targets. targets.items) judged.others) ≡ targets_of (given surroundings.entry).default items.now generated.now) }
{
    let foreseen = foresee(rt, alloc, surroundings.default, items, generated)?;
    let judged = judge_foreseen(rt, alloc, surroundings, items, &foreseen, generated);
    drop(foreseen);
    judged
}
