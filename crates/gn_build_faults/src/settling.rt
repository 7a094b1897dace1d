// Which items reach no cycle, by an order in which dependencies stand first.

ghost use Rattle.std.specs.Prelude.{◌≡◌, ◌∷◌, [], ℕ, List, Some, true, false, replicate, slice_set, IfOk};
ghost use Rattle.std.specs.List.{list_all};
ghost use Rattle.gn_cycles.specs.Settled.{AreSettled};
ghost use Rattle.gn_items.specs.declared.item.Item.{Item};
ghost use Rattle.gn_labelled.specs.Graphs.{shape_of};
ghost use Rattle.gn_build_faults.specs.Settling.{is_marked, is_settled, AreMarked};
ghost use Rattle.gn_build_faults.specs.Links.{AreLinks, links_in, links_at as linked_places};

use crate::links::{Links, links_at};
use crate::order::dependencies_first;
use gn_chains::Firsts;
use gn_labelled::ItemIndex;
use gn_labels::Label;
use std::alloc::{AllocError, Global};

/// Which items are known to reach no cycle, by marks at their places.
#[derive(Drop)]
pub(crate) struct SettledItems {
    /// The marks.
    pub(crate) marks: Vec<bool>,
}

// Whether the item at a place is marked; what no item has reaches nothing.
fn is_marked(marks: &[bool], place: Option<usize>) -> bool
    ensures { result ≡ is_marked marks.now place }
{
    let Some(place) = place else {
        return true;
    };
    match marks.get(place) {
        None => false,
        Some(is_marked) => *is_marked,
    }
}

// Whether the item of a label is marked, or no item has it.
fn is_settled(items: &ItemIndex<'_>, marks: &[bool], label: &Label) -> bool
    ensures { result ≡ is_settled items.now marks.now label.now }
{
    is_marked(marks, items.place(label))
}

// Whether those of all dependencies of the item at a place are.
fn has_settled(links: &[Links], marks: &[bool], place: usize) -> bool
    ensures { result ≡ list_all (is_marked marks.now) (linked_places (links_in links.now) (Some place)) }
{
    links_at(links, Some(place))
        .iter()
        .all(|place| is_marked(marks, *place))
}

/// Marks a place, if there is one.
pub(crate) fn mark(marks: &mut [bool], place: usize)
    ensures { marks.new ≡ slice_set marks.old place true }
{
    if place < marks.len() {
        marks[place] = true;
    }
}

// Marks the item at a place, if all its dependencies are marked.
fn settle(links: &[Links], marks: &mut [bool], place: usize)
    ensures { (items : List Item) → AreLinks items links.now → AreMarked items marks.old → AreMarked items marks.new }
{
    if has_settled(links, &*marks, place) {
        mark(marks, place);
    }
}

// Marks the items at places, one after the other.
fn settle_all(links: &[Links], marks: &mut [bool], order: &[usize])
    ensures { (items : List Item) → AreLinks items links.now → AreMarked items marks.old → AreMarked items marks.new }
{
    for place in order {
        settle(links, marks, *place);
    }
}

/// No marks, one for each item.
#[tactic(auto, using(crate::proofs::Marked::none_made))]
pub(crate) fn no_marks(alloc: Global, items: &ItemIndex<'_>) -> Result<Vec<bool>, AllocError>
    ensures { IfOk result (λ marks. (k : ℕ) × (marks.items ≡ replicate k false)) }
{
    let mut marks = Vec::new(alloc);
    marks.resize(items.items().len(), false)?;
    Ok(marks)
}

/// Which items are known to reach no cycle, by the places of their dependencies: of the items at places and of what they depend on
/// all that reach none.
pub(crate) fn settled(
    alloc: Global,
    items: &ItemIndex<'_>,
    links: &[Links],
    places: &[Option<usize>],
) -> Result<SettledItems, AllocError>
    requires { AreLinks items.now links.now }
    ensures { IfOk result (λ settled. AreMarked items.now settled.marks.items) }
{
    let order = dependencies_first(alloc, links, places)?;
    let mut marks = no_marks(alloc, items)?;
    settle_all(links, marks.as_mut_slice(), order.as_slice());
    Ok(SettledItems { marks })
}

// A label alone.
fn alone(alloc: Global, label: &Label) -> Result<Firsts, AllocError>
    ensures { IfOk result (λ labels. labels ≡ label.now ∷ []) }
{
    let mut labels = Firsts::new(alloc);
    labels.add(label)?;
    Ok(labels)
}

/// A target alone, if it is known to reach no cycle; else no label.
pub(crate) fn alone_settled(
    alloc: Global,
    items: &ItemIndex<'_>,
    settled: &SettledItems,
    target: &Label,
) -> Result<Firsts, AllocError>
    requires { AreMarked items.now settled.now.marks.items }
    ensures { IfOk result (AreSettled (shape_of items.now)) }
{
    if is_settled(items, settled.marks.as_slice(), target) {
        alone(alloc, target)
    } else {
        Ok(Firsts::new(alloc))
    }
}
