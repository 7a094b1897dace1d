// The shortest path, and the shortest cycle.

ghost use Rattle.std.specs.Prelude.{◌≡◌, List, IfOk, option_map};
ghost use Rattle.gn_labels.specs.declared.label.Label.{Label as Named};
ghost use Rattle.gn_dependencies.specs.Shape.{all_deps};
ghost use Rattle.gn_cycles.specs.Search.{AreEarlier, IsSearched};
ghost use Rattle.gn_cycles.specs.Shortest.{IsShortestPath, IsShortestCycle};

use crate::search::{Search, searched};
use crate::way::way_to;
use gn_chains::Graph;
use gn_labels::Label;
use std::alloc::{AllocError, Global};

// The shortest path to a label in a search that is at its end; none where the search has not met it.
fn path_in(alloc: Global, search: &Search, to: &Label) -> Result<Option<Vec<Label>>, AllocError>
    requires { AreEarlier search.now.labels search.now.sources.items }
    ensures { IfOk result (λ path. (next : Named → List Named) (from : Named) → IsSearched next from to.now search.now.labels search.now.sources.items
        → IsShortestPath next from to.now (option_map (λ labels. labels.items) path)) }
{
    match search.labels.number(to) {
        None => Ok(None),
        Some(place) => Ok(Some(way_to(alloc, search, place + 1)?)),
    }
}

/// The shortest path by dependencies from a label to another, without the label from which it starts; of those that are equally
/// long the first in dependency order, in which the public dependencies of a target stand before the private ones, and these
/// before those of data. None exactly where no path leads there. The path from a label to itself has at least one edge.
pub fn shortest_path<G: Graph>(
    alloc: Global,
    from: &Label,
    to: &Label,
    graph: &G,
) -> Result<Option<Vec<Label>>, AllocError>
    ensures { IfOk result (λ path. IsShortestPath (all_deps (G.shape graph.now)) from.now to.now (option_map (λ labels. labels.items) path)) }
{
    let search = searched(alloc, from, to, graph)?;
    let path = path_in(alloc, &search, to);
    drop(search);
    path
}

/// The shortest cycle of dependencies on which a target lies, without the target at its start; of those that are equally long the
/// first in dependency order. None exactly where the target lies on no cycle.
pub fn shortest_cycle<G: Graph>(
    alloc: Global,
    target: &Label,
    graph: &G,
) -> Result<Option<Vec<Label>>, AllocError>
    ensures { IfOk result (λ cycle. IsShortestCycle (G.shape graph.now) target.now (option_map (λ labels. labels.items) cycle)) }
{
    shortest_path(alloc, target, target, graph)
}
