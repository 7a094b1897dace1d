// An order of items in which dependencies stand before those that depend on them, but where they lie on a cycle. What is made of
// it holds in whatever order: this one makes it quick, and so its contracts say nothing of it.

use crate::links::Links;
use std::alloc::{AllocError, Global};

// Where a dependency of the item at a place stands, if it stands anywhere; None where it has no more of them.
fn dependency(links: &[Links], place: usize, next: usize) -> Option<Option<usize>> {
    match links.get(place) {
        None => None,
        Some(links) => match links.places.as_slice().get(next) {
            None => None,
            Some(place) => Some(*place),
        },
    }
}

// A walk in depth, by the places of items: those from which it goes on with the place of the dependency that comes next, which items
// it has met, and those whose dependencies it has all met.
#[derive(Drop)]
struct Walk {
    open: Vec<(usize, usize)>,
    met: Vec<bool>,
    order: Vec<usize>,
}

// Meets the item at a place. Whether there is one that was not met before.
fn meet(met: &mut [bool], place: usize) -> bool {
    match met.get_mut(place) {
        None => false,
        Some(is_met) => {
            let is_new = !*is_met;
            *is_met = true;
            is_new
        }
    }
}

// Goes to the item at a place, unless it was met.
fn enter(walk: &mut Walk, place: Option<usize>) -> Result<(), AllocError> {
    let Some(place) = place else {
        return Ok(());
    };
    if meet(walk.met.as_mut_slice(), place) {
        walk.open.push((place, 0))?;
    }
    Ok(())
}

// Goes on to the next dependency of the innermost item, or leaves it.
fn step(walk: &mut Walk, links: &[Links]) -> Result<(), AllocError> {
    let Some((place, next)) = walk.open.pop() else {
        return Ok(());
    };
    match dependency(links, place, next) {
        None => {
            walk.order.push(place)?;
            Ok(())
        }
        Some(dependency) => {
            walk.open.push((place, next.saturating_add(1)))?;
            enter(walk, dependency)
        }
    }
}

// Goes through all that is met from an item. It ends where all is met, since no item is entered twice: the count is no bound that
// is ever reached.
fn walk_from(walk: &mut Walk, links: &[Links], place: Option<usize>) -> Result<(), AllocError> {
    enter(walk, place)?;
    for _ in 0..usize::MAX {
        if walk.open.is_empty() {
            break;
        }
        step(walk, links)?;
    }
    Ok(())
}

// Goes through all that is met from places.
fn walk_all(walk: &mut Walk, links: &[Links], places: &[Option<usize>]) -> Result<(), AllocError> {
    walk.met.resize(links.len(), false)?;
    walk.order.reserve(places.len())?;
    for place in places {
        walk_from(walk, links, *place)?;
    }
    Ok(())
}

/// These places and those of what their items depend on, dependencies first but where they lie on a cycle. It looks at each
/// dependency once, and looks nothing up.
pub(crate) fn dependencies_first(
    alloc: Global,
    links: &[Links],
    places: &[Option<usize>],
) -> Result<Vec<usize>, AllocError> {
    let mut walk = Walk {
        open: Vec::new(alloc),
        met: Vec::new(alloc),
        order: Vec::new(alloc),
    };
    if let Err(error) = walk_all(&mut walk, links, places) {
        drop(walk);
        return Err(error);
    }
    let Walk { open, met, order } = walk;
    drop(open);
    drop(met);
    Ok(order)
}
