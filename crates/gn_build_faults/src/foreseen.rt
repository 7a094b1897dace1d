// What is known of the targets of a build before any of them is looked at: each label is looked up once for it.

ghost use Rattle.std.specs.Prelude.{◌≡◌, true, IfOk};
ghost use Rattle.gn_build_faults.specs.Links.{AreLinks, places_of};
ghost use Rattle.gn_build_faults.specs.Reaching.{targets_of};
ghost use Rattle.gn_build_faults.specs.Settling.{AreMarked};

use crate::links::{Links, all_links, places_of};
use crate::settling::{SettledItems, settled};
use crate::whole::is_whole;
use gn_labelled::ItemIndex;
use gn_labels::Label;
use gn_paths::Text;
use std::alloc::{AllocError, Global};
use std::mem::forget;
use std::thread::Threads;

/// What is known of the targets that are generated before any of them is looked at.
#[derive(Drop)]
pub(crate) struct Foreseen {
    /// Whether it is known that they are all the targets of which faults are told.
    pub(crate) is_whole: bool,
    /// Which items reach no cycle.
    pub(crate) settled: SettledItems,
}

// Which items reach no cycle, by the places of the dependencies of all and of labels.
fn settled_by<R: Threads + Sync>(
    rt: &R,
    alloc: Global,
    items: &ItemIndex<'_>,
    links: &[Links],
    labels: &[Label],
) -> Result<SettledItems, AllocError>
    requires { AreLinks items.now links.now }
    ensures { IfOk result (λ settled. AreMarked items.now settled.marks.items) }
{
    let places = places_of(rt, alloc, items, labels)?;
    settled(alloc, items, links, places.as_slice())
}

/// Which items are known to reach no cycle: of labels and of what they depend on all that reach none.
pub(crate) fn settled_labels<R: Threads + Sync>(
    rt: &R,
    alloc: Global,
    items: &ItemIndex<'_>,
    labels: &[Label],
) -> Result<SettledItems, AllocError>
    ensures { IfOk result (λ settled. AreMarked items.now settled.marks.items) }
{
    let links = all_links(rt, alloc, items)?;
    let settled = settled_by(rt, alloc, items, links.as_slice(), labels);
    forget(links);
    settled
}

// What is known of the targets that are generated, by the places of the dependencies of all items and by their own.
fn foreseen_at(
    alloc: Global,
    default: &Text,
    items: &ItemIndex<'_>,
    links: &[Links],
    places: &[Option<usize>],
    generated: &[Label],
) -> Result<Foreseen, AllocError>
    requires links { AreLinks items.now links.now }
    requires places { places.now ≡ places_of items.now generated.now }
    ensures whole { IfOk result (λ f. f.is_whole ≡ true → generated.now ≡ targets_of default.now items.now generated.now) }
    ensures settled { IfOk result (λ f. AreMarked items.now f.settled.marks.items) }
{
    let is_whole = is_whole(alloc, default, items, links, places, generated)?;
    let settled = settled(alloc, items, links, places)?;
    Ok(Foreseen { is_whole, settled })
}

// The same, by the places of the dependencies of all items.
fn foreseen_by<R: Threads + Sync>(
    rt: &R,
    alloc: Global,
    default: &Text,
    items: &ItemIndex<'_>,
    links: &[Links],
    generated: &[Label],
) -> Result<Foreseen, AllocError>
    requires { AreLinks items.now links.now }
    ensures whole { IfOk result (λ f. f.is_whole ≡ true → generated.now ≡ targets_of default.now items.now generated.now) }
    ensures settled { IfOk result (λ f. AreMarked items.now f.settled.marks.items) }
{
    let places = places_of(rt, alloc, items, generated)?;
    foreseen_at(alloc, default, items, links, places.as_slice(), generated)
}

/// What is known of the targets that are generated. The places that were looked up for it aren't let go, since a run keeps its memory
/// until the process ends.
pub(crate) fn foresee<R: Threads + Sync>(
    rt: &R,
    alloc: Global,
    default: &Text,
    items: &ItemIndex<'_>,
    generated: &[Label],
) -> Result<Foreseen, AllocError>
    ensures whole { IfOk result (λ f. f.is_whole ≡ true → generated.now ≡ targets_of default.now items.now generated.now) }
    ensures settled { IfOk result (λ f. AreMarked items.now f.settled.marks.items) }
{
    let links = all_links(rt, alloc, items)?;
    let foreseen = foreseen_by(rt, alloc, default, items, links.as_slice(), generated);
    forget(links);
    foreseen
}
