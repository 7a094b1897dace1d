// Where the items stand that labels name, for which several threads look.

ghost use Rattle.std.specs.Prelude.{◌≡◌, ◌<◌, ◌++◌, Some, IfOk, OnOk, length, option_map, slice_index_or};
ghost use Rattle.gn_labelled.specs.Index.{place_of, item_in};
ghost use Rattle.gn_labels.specs.declared.label.Label.{Label as Name};
ghost use Rattle.gn_build_faults.specs.Settling.{dependencies_at};
ghost use Rattle.gn_build_faults.specs.Links.{AreLinks, places_of, links_at, links_in};

use crate::shared::items_are_shared;
use gn_beside::deal;
use gn_items::Item;
use gn_labelled::ItemIndex;
use gn_labels::Label;
use gn_rows::Variable;
use std::alloc::{AllocError, Global};
use std::thread::Threads;

// How many items, or labels, a thread takes at once.
const PIECE: usize = 32;

/// Where the items stand that an item depends on: public, private, of data. What no item has stands nowhere.
#[derive(Drop)]
pub(crate) struct Links {
    /// Their places.
    pub(crate) places: Vec<Option<usize>>,
}

// Puts the places of labels behind others.
fn add_places(
    items: &ItemIndex<'_>,
    places: &mut Vec<Option<usize>>,
    labels: &[Label],
) -> Result<(), AllocError>
    ensures { OnOk result (places.new.items ≡ places.old.items ++ places_of items.now labels.now) }
{
    for label in labels {
        places.push(items.place(label))?;
    }
    Ok(())
}

// Puts the places of the dependencies of an item behind others.
#[tactic(auto, using(crate::proofs::Linked::of_three))]
fn add_dependencies(
    items: &ItemIndex<'_>,
    places: &mut Vec<Option<usize>>,
    item: &Item,
) -> Result<(), AllocError>
    ensures { OnOk result (places.new.items ≡ places.old.items ++ places_of items.now (dependencies_at (Some item.now))) }
{
    add_places(items, places, item.fields.labels(Variable::PublicDeps))?;
    add_places(items, places, item.fields.labels(Variable::Deps))?;
    add_places(items, places, item.fields.labels(Variable::DataDeps))
}

// The places of the dependencies of an item.
fn item_links(alloc: Global, items: &ItemIndex<'_>, item: &Item) -> Result<Links, AllocError>
    ensures { IfOk result (λ links. links.places.items ≡ places_of items.now (dependencies_at (Some item.now))) }
{
    let mut places = Vec::new(alloc);
    add_dependencies(items, &mut places, item)?;
    Ok(Links { places })
}

// The places of the dependencies of an item, if there is one.
fn links_of(alloc: Global, items: &ItemIndex<'_>, item: Option<&Item>) -> Result<Links, AllocError>
    ensures { IfOk result (λ links. links.places.items ≡ places_of items.now (dependencies_at (option_map (λ i. i.now) item.entry))) }
{
    match item {
        None => Ok(Links {
            places: Vec::new(alloc),
        }),
        Some(item) => item_links(alloc, items, item),
    }
}

// The places of the dependencies of the item at a place.
fn links_from(alloc: Global, items: &ItemIndex<'_>, place: usize) -> Result<Links, AllocError>
    ensures { IfOk result (λ links. links.places.items ≡ places_of items.now (dependencies_at (item_in items.now (Some place)))) }
{
    let item = items.at(Some(place));
    links_of(alloc, items, item)
}

/// The places of the dependencies of each item. Several threads look for them, each for those of the next items that none has taken.
pub(crate) fn all_links<R: Threads + Sync>(
    rt: &R,
    alloc: Global,
    items: &ItemIndex<'_>,
) -> Result<Vec<Links>, AllocError>
    ensures { IfOk result (λ links. AreLinks items.now links.items) }
{
    items_are_shared();
    let make = |place: usize| -> Result<Links, AllocError>
        ensures { IfOk result (λ links. links.places.items ≡ places_of items.entry.now (dependencies_at (item_in items.entry.now (Some place)))) }
    { links_from(alloc, items, place) };
    deal(rt, alloc, items.items().len(), PIECE, &make)
}

// The place of a label. It takes no memory.
fn found(items: &ItemIndex<'_>, label: &Label) -> Result<Option<usize>, AllocError>
    ensures { IfOk result (λ place. place ≡ place_of label.now items.now) }
{
    Ok(items.place(label))
}

/// The places of labels. Several threads look for them, each for those of the next labels that none has taken.
pub(crate) fn places_of<R: Threads + Sync>(
    rt: &R,
    alloc: Global,
    items: &ItemIndex<'_>,
    labels: &[Label],
) -> Result<Vec<Option<usize>>, AllocError>
    ensures { IfOk result (λ places. places.items ≡ places_of items.now labels.now) }
{
    items_are_shared();
    let make = |place: usize| -> Result<Option<usize>, AllocError>
        requires { place < length labels.now }
        ensures { (other : Name) → IfOk result (λ found. found ≡ place_of (slice_index_or labels.entry.now place other) items.entry.now) }
    { found(items, &labels[place]) };
    deal(rt, alloc, labels.len(), PIECE, &make)
}

/// The places of the dependencies of the item at a place; none where there is no item.
pub(crate) fn links_at(links: &[Links], place: Option<usize>) -> &[Option<usize>]
    ensures { result.now ≡ links_at (links_in links.now) place }
{
    let Some(place) = place else {
        return &[];
    };
    match links.get(place) {
        None => &[],
        Some(links) => links.places.as_slice(),
    }
}
