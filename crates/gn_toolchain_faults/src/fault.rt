// The fault that is told of the toolchains that targets use.

ghost use Rattle.std.specs.Prelude.{◌≡◌, IfOk};
ghost use Rattle.gn_toolchains.specs.Toolchains.{lent};
ghost use Rattle.gn_toolchains.specs.Frames.{surroundings as given};
ghost use Rattle.gn_toolchain_faults.specs.Least.{with_one};
ghost use Rattle.gn_toolchain_faults.specs.Pools.{code_of};
ghost use Rattle.gn_toolchain_faults.specs.Faults.{pool_fault, name_told, fault_of, beside, told_of, label_of, fault_among, toolchain_fault};

use crate::names::has_namesake;
use crate::pools::{Wrong, wrong_pool};
use crate::told::{file_told, pool_told};
use crate::used::used;
use gn_faults::{Code, Fault};
use gn_items::Item;
use gn_labelled::ItemIndex;
use gn_labels::Label;
use gn_paths::Text;
use gn_toolchains::Surroundings;
use std::alloc::{AllocError, Global};

/// A fault of a toolchain.
#[derive(Drop)]
pub struct ToolchainFault {
    /// The label of the toolchain.
    pub label: Label,
    /// The fault.
    pub fault: Fault,
}

// The toolchains that targets use, by the items that define them.
#[derive(Drop)]
struct Toolchains<'a, 'b> {
    surroundings: Surroundings<'a>,
    // The items of the build.
    items: &'a ItemIndex<'b>,
    used: Vec<&'b Item>,
}

// The code by which it is told what is wrong with a pool.
fn code_of(wrong: Wrong) -> Code
    ensures { result ≡ code_of wrong }
{
    match wrong {
        Wrong::Missing => Code::Unresolved,
        Wrong::Foreign => Code::WrongKind,
    }
}

// The fault of the first in label order of the pools of a toolchain's tools with which this is wrong, if there is one.
fn pool_fault(
    alloc: Global,
    toolchains: &Toolchains<'_, '_>,
    wrong: Wrong,
    item: &Item,
) -> Result<Option<Fault>, AllocError>
    ensures { IfOk result (λ fault. fault ≡ pool_fault toolchains.now.surroundings.default.now toolchains.now.items.now wrong item.now) }
{
    let default = toolchains.surroundings.default;
    match wrong_pool(wrong, default, toolchains.items, item.tools.as_slice()) {
        None => Ok(None),
        Some(pool) => Ok(Some(pool_told(alloc, default, item, code_of(wrong), pool)?)),
    }
}

// The fault of a toolchain whose name another one before it has.
fn name_fault(
    alloc: Global,
    toolchains: &Toolchains<'_, '_>,
    item: &Item,
) -> Result<Option<Fault>, AllocError>
    ensures { IfOk result (λ fault. fault ≡ name_told (given toolchains.now.surroundings) (lent toolchains.now.used.items) item.now) }
{
    let surroundings = toolchains.surroundings;
    if has_namesake(surroundings.default, item, toolchains.used.as_slice()) {
        return Ok(Some(file_told(alloc, surroundings, item)?));
    }
    Ok(None)
}

// The fault of a toolchain, if it has one.
#[tactic(auto, unfolding(crate::specs::Faults::fault_of))]
fn fault_of(
    alloc: Global,
    toolchains: &Toolchains<'_, '_>,
    item: &Item,
) -> Result<Option<Fault>, AllocError>
    ensures { IfOk result (λ fault. fault ≡ fault_of (given toolchains.now.surroundings) toolchains.now.items.now (lent toolchains.now.used.items) item.now) }
{
    if let Some(fault) = pool_fault(alloc, toolchains, Wrong::Missing, item)? {
        return Ok(Some(fault));
    }
    if let Some(fault) = pool_fault(alloc, toolchains, Wrong::Foreign, item)? {
        return Ok(Some(fault));
    }
    name_fault(alloc, toolchains, item)
}

// A fault beside the label of its toolchain.
fn beside(alloc: Global, label: &Label, fault: Fault) -> Result<ToolchainFault, AllocError>
    ensures { IfOk result (λ told. told ≡ beside label.now fault) }
{
    let label = label.copy(alloc)?;
    Ok(ToolchainFault { label, fault })
}

// The fault of a toolchain with its label, if it has one.
fn told_of(
    alloc: Global,
    toolchains: &Toolchains<'_, '_>,
    item: &Item,
) -> Result<Option<ToolchainFault>, AllocError>
    ensures { IfOk result (λ told. told ≡ told_of (given toolchains.now.surroundings) toolchains.now.items.now (lent toolchains.now.used.items) item.now) }
{
    match fault_of(alloc, toolchains, item)? {
        None => Ok(None),
        Some(fault) => Ok(Some(beside(alloc, &item.label, fault)?)),
    }
}

// The fault whose toolchain comes first in label order, of two where there may be none.
fn with_one(
    best: Option<ToolchainFault>,
    told: Option<ToolchainFault>,
    default: &Text,
) -> Option<ToolchainFault>
    ensures { result ≡ with_one label_of default.now best told }
{
    let Some(told) = told else {
        return best;
    };
    match best {
        None => Some(told),
        Some(best) => {
            if told.label.before(&best.label, default) {
                Some(told)
            } else {
                Some(best)
            }
        }
    }
}

// The fault of the first in label order of the toolchains that have one.
fn fault_among(
    alloc: Global,
    toolchains: &Toolchains<'_, '_>,
) -> Result<Option<ToolchainFault>, AllocError>
    ensures { IfOk result (λ told. told ≡ fault_among (given toolchains.now.surroundings) toolchains.now.items.now (lent toolchains.now.used.items)) }
{
    let mut best: Option<ToolchainFault> = None;
    for item in toolchains.used.as_slice() {
        let told = told_of(alloc, toolchains, item)?;
        best = with_one(best, told, toolchains.surroundings.default);
    }
    Ok(best)
}

/// The fault that is told of the toolchains that targets use, by what never changes in the build, the items that it defines and
/// these targets: that of the first toolchain in label order that has one. A toolchain is used where one of the targets has it in its
/// label, and has a fault only where an item defines it. Its faults go by code: `Unresolved` for a pool that one of its tools names and
/// no item has, `WrongKind` for one whose label is that of an item of another kind (of several pools the first in label order is told),
/// and `SameOutput`, with the path of its file, where another toolchain that is used stands before it in label order and has its name.
/// None comes exactly where none of them has a fault. It compares each of these toolchains with each other one.
#[tactic(auto, unfolding(crate::specs::Faults::toolchain_fault))]
pub fn toolchain_fault<'a>(
    alloc: Global,
    surroundings: Surroundings<'a>,
    items: &'a ItemIndex<'_>,
    targets: &[Label],
) -> Result<Option<ToolchainFault>, AllocError>
    ensures { IfOk result (λ told. told ≡ toolchain_fault (given surroundings.entry) items.now targets.now) }
{
    let used = used(alloc, surroundings.default, items.items(), targets)?;
    let toolchains = Toolchains {
        surroundings,
        items,
        used,
    };
    fault_among(alloc, &toolchains)
}
