// Whether the targets that are generated have all their dependencies among them.

ghost use Rattle.std.specs.Prelude.{◌≡◌, ℕ, List, true, false, replicate, IfOk};
ghost use Rattle.std.specs.List.{list_all};
ghost use Rattle.gn_items.specs.declared.item.Item.{Item};
ghost use Rattle.gn_build_faults.specs.Links.{AreLinks, places_of, links_in, links_at as linked_places};
ghost use Rattle.gn_build_faults.specs.Reaching.{targets_of};
ghost use Rattle.gn_build_faults.specs.Whole.{rises_from, rises, with_mark, with_places, has_mark, are_linked};

use crate::links::{Links, links_at};
use crate::settling::{mark, no_marks};
use gn_graph_meant::the_labels_of_items_are_enough;
use gn_labelled::ItemIndex;
use gn_labels::{Label, label_order_is_transitive};
use gn_paths::Text;
use gn_resolved_meant::reached_targets_are_closed;
use std::alloc::{AllocError, Global};

// Whether a label and those behind it come one before the other in label order.
fn rises_from(default: &Text, first: &Label, labels: &[Label]) -> bool
    ensures { result ≡ rises_from default.now first.now labels.now }
{
    let mut last = first;
    for label in labels {
        if !last.before(label, default) {
            return false;
        }
        last = label;
    }
    true
}

// Whether labels come one before the other in label order.
fn rises(default: &Text, labels: &[Label]) -> bool
    ensures { result ≡ rises default.now labels.now }
{
    match labels {
        [] => true,
        [first, rest @ ..] => rises_from(default, first, rest),
    }
}

// Marks the place of an item, if there is one.
fn mark_at(marks: &mut [bool], place: Option<usize>)
    ensures { marks.new ≡ with_mark marks.old place }
{
    if let Some(place) = place {
        mark(marks, place);
    }
}

// Marks places.
fn mark_all(marks: &mut [bool], places: &[Option<usize>])
    ensures { marks.new ≡ with_places marks.old places.now }
{
    for place in places {
        mark_at(marks, *place);
    }
}

// Whether there is an item at a place, and it is marked.
fn has_mark(marks: &[bool], place: Option<usize>) -> bool
    ensures { result ≡ has_mark marks.now place }
{
    let Some(place) = place else {
        return false;
    };
    match marks.get(place) {
        None => false,
        Some(is_marked) => *is_marked,
    }
}

// Whether all of the places have items that are marked.
fn have_marks(marks: &[bool], places: &[Option<usize>]) -> bool
    ensures { result ≡ list_all (has_mark marks.now) places.now }
{
    places.iter().all(|place| has_mark(marks, *place))
}

// Whether all dependencies of the item at a place have.
fn is_linked(links: &[Links], marks: &[bool], place: Option<usize>) -> bool
    ensures { result ≡ list_all (has_mark marks.now) (linked_places (links_in links.now) place) }
{
    have_marks(marks, links_at(links, place))
}

// Whether all dependencies of the items at places have.
fn are_linked(links: &[Links], marks: &[bool], places: &[Option<usize>]) -> bool
    ensures { result ≡ are_linked (links_in links.now) marks.now places.now }
{
    places.iter().all(|place| is_linked(links, marks, *place))
}

// Whether the items at places have all their dependencies among them, where nothing is marked.
fn is_closed_by(links: &[Links], marks: &mut [bool], places: &[Option<usize>]) -> bool
    ensures { result ≡ are_linked (links_in links.now) (with_places marks.old places.now) places.now }
{
    mark_all(marks, places);
    are_linked(links, &*marks, places)
}

// The same of labels, where they also stand in label order: then they are all that are reached from them.
fn is_whole_by(
    default: &Text,
    links: &[Links],
    places: &[Option<usize>],
    marks: &mut [bool],
    labels: &[Label],
) -> bool
    ensures { (items : List Item) (k : ℕ) → AreLinks items links.now → places.now ≡ places_of items labels.now → marks.old ≡ replicate k false
        → result ≡ true → labels.now ≡ targets_of default.now items labels.now }
{
    label_order_is_transitive();
    the_labels_of_items_are_enough();
    reached_targets_are_closed();
    rises(default, labels) && is_closed_by(links, marks, places)
}

/// Whether it is known that the targets that are generated, which stand at these places, are all the targets of which faults are told:
/// where they stand in label order and have all their dependencies among them.
pub(crate) fn is_whole(
    alloc: Global,
    default: &Text,
    items: &ItemIndex<'_>,
    links: &[Links],
    places: &[Option<usize>],
    generated: &[Label],
) -> Result<bool, AllocError>
    requires links { AreLinks items.now links.now }
    requires places { places.now ≡ places_of items.now generated.now }
    ensures { IfOk result (λ whole. whole ≡ true → generated.now ≡ targets_of default.now items.now generated.now) }
{
    let mut marks = no_marks(alloc, items)?;
    Ok(is_whole_by(default, links, places, marks.as_mut_slice(), generated))
}
