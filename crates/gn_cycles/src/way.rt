// The way to a label that a search has met.

ghost use Rattle.std.specs.Prelude.{◌≡◌, ℕ, ◌<◌, ◌≤◌, ◌++◌, ◌∷◌, [], List, Some, slice_get, length, OnOk, IfOk};
ghost use Rattle.gn_dependencies.specs.Shape.{Path};
ghost use Rattle.gn_cycles.specs.Search.{AreWays, AreEarlier};

use crate::search::Search;
use gn_labels::Label;
use std::alloc::{AllocError, Global};

// Puts a copy of a label behind the others.
fn push_copy(alloc: Global, labels: &mut Vec<Label>, label: &Label) -> Result<(), AllocError>
    ensures { OnOk result (labels.new.items ≡ labels.old.items ++ label.now ∷ []) }
{
    labels.reserve(1)?;
    labels.push_reserved(label.copy(alloc)?);
    Ok(())
}

// The number from which the label at a place was met.
fn source_of(search: &Search, place: usize) -> usize
    requires { place < length search.now.sources.items }
    ensures { slice_get search.now.sources.items place ≡ Some result }
{
    search.sources[place]
}

// The labels on the way to a number.
pub(crate) fn way_to(
    alloc: Global,
    search: &Search,
    number: usize,
) -> Result<Vec<Label>, AllocError>
    requires within { number ≤ length search.now.labels }
    requires earlier { AreEarlier search.now.labels search.now.sources.items }
    ensures { IfOk result (λ way. (ways : List Path) → AreWays search.now.labels search.now.sources.items ways → slice_get ([] ∷ ways) number ≡ Some way.items) }
{
    let mut way = Vec::new(alloc);
    let mut left = number;
    while left > 0 {
        if let Err(error) = push_copy(alloc, &mut way, search.labels.at(left - 1)) {
            drop(way);
            return Err(error);
        }
        left = source_of(search, left - 1);
    }
    way.reverse();
    Ok(way)
}
