// Targets level by level: the dependencies of a target stand in levels before its own, but where they lie on a cycle. What is made
// level by level is looked at again behind it, and so the contracts say nothing of it.

use gn_items::Item;
use gn_labelled::ItemIndex;
use gn_labels::Label;
use gn_rows::Variable;
use indexmap::IndexSet;
use std::alloc::{AllocError, Global};

// For how many of its dependencies each target waits, and which targets wait for it, all by their places.
#[derive(Drop)]
struct Waiting {
    counts: Vec<usize>,
    dependents: Vec<Vec<usize>>,
}

// The targets, each once.
fn places_of<'t>(alloc: Global, targets: &'t [Label]) -> Result<IndexSet<&'t Label>, AllocError> {
    let mut places = IndexSet::new(alloc);
    places.reserve(targets.len())?;
    for target in targets {
        places.insert(target)?;
    }
    Ok(places)
}

// So many targets, of which none waits.
fn add_places(alloc: Global, waiting: &mut Waiting, count: usize) -> Result<(), AllocError> {
    waiting.counts.reserve(count)?;
    waiting.dependents.reserve(count)?;
    for _ in 0..count {
        waiting.counts.push(0)?;
        waiting.dependents.push(Vec::new(alloc))?;
    }
    Ok(())
}

// A target waits for one more.
fn add_wait(waiting: &mut Waiting, place: usize, dependency: usize) -> Result<(), AllocError> {
    if let Some(dependents) = waiting.dependents.get_mut(dependency) {
        dependents.push(place)?;
    }
    if let Some(count) = waiting.counts.get_mut(place) {
        *count = count.saturating_add(1);
    }
    Ok(())
}

// A target waits for those of the labels that are targets.
fn add_waits(
    waiting: &mut Waiting,
    places: &IndexSet<&Label>,
    place: usize,
    labels: &[Label],
) -> Result<(), AllocError> {
    for label in labels {
        if let Some(dependency) = (&*places).get_index_of(&label) {
            add_wait(waiting, place, dependency)?;
        }
    }
    Ok(())
}

// A target waits for the dependencies that its item has.
fn add_item(
    waiting: &mut Waiting,
    places: &IndexSet<&Label>,
    place: usize,
    item: Option<&Item>,
) -> Result<(), AllocError> {
    let Some(item) = item else {
        return Ok(());
    };
    add_waits(
        waiting,
        places,
        place,
        item.fields.labels(Variable::PublicDeps),
    )?;
    add_waits(waiting, places, place, item.fields.labels(Variable::Deps))?;
    add_waits(
        waiting,
        places,
        place,
        item.fields.labels(Variable::DataDeps),
    )
}

// Each target waits for its dependencies.
fn add_items(
    alloc: Global,
    waiting: &mut Waiting,
    places: &IndexSet<&Label>,
    items: &ItemIndex<'_>,
) -> Result<(), AllocError> {
    add_places(alloc, waiting, places.len())?;
    for (place, label) in places.as_slice().iter().enumerate() {
        add_item(waiting, places, place, items.item(label))?;
    }
    Ok(())
}

// The places of the targets that wait for none.
fn first_level(alloc: Global, counts: &[usize]) -> Result<Vec<usize>, AllocError> {
    let mut level = Vec::new(alloc);
    for (place, count) in counts.iter().enumerate() {
        if *count == 0 {
            level.push(place)?;
        }
    }
    Ok(level)
}

// Puts those with the next level that wait for none behind this dependency.
fn add_released(
    counts: &mut Vec<usize>,
    next: &mut Vec<usize>,
    dependents: &[usize],
) -> Result<(), AllocError> {
    for place in dependents {
        if let Some(count) = counts.get_mut(*place) {
            *count = count.saturating_sub(1);
            if *count == 0 {
                next.push(*place)?;
            }
        }
    }
    Ok(())
}

// The places of those that wait for none behind this level.
fn next_level(
    alloc: Global,
    waiting: &mut Waiting,
    level: &[usize],
) -> Result<Vec<usize>, AllocError> {
    let mut next = Vec::new(alloc);
    for place in level {
        if let Some(dependents) = waiting.dependents.get(*place) {
            add_released(&mut waiting.counts, &mut next, dependents.as_slice())?;
        }
    }
    Ok(next)
}

// Puts a copy of a label behind others.
fn push_copy(alloc: Global, labels: &mut Vec<Label>, label: &Label) -> Result<(), AllocError> {
    labels.reserve(1)?;
    let label = label.copy(alloc)?;
    labels.push_reserved(label);
    Ok(())
}

// Copies of the labels at places.
fn labels_at(alloc: Global, labels: &[&Label], level: &[usize]) -> Result<Vec<Label>, AllocError> {
    let mut found = Vec::new(alloc);
    for place in level {
        if let Some(label) = labels.get(*place) {
            push_copy(alloc, &mut found, label)?;
        }
    }
    Ok(found)
}

// Puts the labels of a level behind the levels before it.
fn push_level(
    alloc: Global,
    levels: &mut Vec<Vec<Label>>,
    labels: &[&Label],
    level: &[usize],
) -> Result<(), AllocError> {
    let labels = labels_at(alloc, labels, level)?;
    levels.push(labels)?;
    Ok(())
}

// Puts one level behind the other, as many as there can be.
fn add_levels(
    alloc: Global,
    levels: &mut Vec<Vec<Label>>,
    waiting: &mut Waiting,
    labels: &[&Label],
) -> Result<(), AllocError> {
    let mut level = first_level(alloc, waiting.counts.as_slice())?;
    for _ in 0..labels.len() {
        if level.is_empty() {
            break;
        }
        push_level(alloc, levels, labels, level.as_slice())?;
        level = next_level(alloc, waiting, level.as_slice())?;
    }
    Ok(())
}

// The levels of targets by their places.
fn levels_at(
    alloc: Global,
    places: &IndexSet<&Label>,
    items: &ItemIndex<'_>,
) -> Result<Vec<Vec<Label>>, AllocError> {
    let mut waiting = Waiting {
        counts: Vec::new(alloc),
        dependents: Vec::new(alloc),
    };
    let mut levels = Vec::new(alloc);
    add_items(alloc, &mut waiting, places, items)?;
    add_levels(alloc, &mut levels, &mut waiting, places.as_slice())?;
    Ok(levels)
}

// The targets level by level, but those that lie on a cycle or depend on one that does. It takes the time of a look-up for each
// target and each of its dependencies.
pub(crate) fn levels(
    alloc: Global,
    items: &ItemIndex<'_>,
    targets: &[Label],
) -> Result<Vec<Vec<Label>>, AllocError> {
    let places = places_of(alloc, targets)?;
    levels_at(alloc, &places, items)
}
