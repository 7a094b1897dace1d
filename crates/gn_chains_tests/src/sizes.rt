// Large graphs: source sets by their numbers, each of which depends on so many right below it.

ghost use Rattle.std.specs.Prelude.{IfOk};
ghost use Rattle.gn_chains_tests.specs.Trees.{HoldsRecords};

use crate::reading::{insert, label, with_records};
use crate::tree::{Item, Tree};
use gn_cycles::shortest_cycle;
use gn_labels::Label;
use gn_paths::Text;
use gn_rows::ItemKind;
use indexmap::IndexMap;
use std::alloc::{AllocError, Global};
use std::test::Fail;

// The label of a number.
fn numbered(alloc: Global, number: usize) -> Result<Label, AllocError> {
    let name = format!(in alloc; "{number}")?;
    label(alloc, name.as_str())
}

fn push(alloc: Global, list: &mut Vec<Label>, number: usize) -> Result<(), AllocError> {
    let label = numbered(alloc, number)?;
    list.push(label)?;
    Ok(())
}

// Puts the labels of numbers from the first to right before the end behind others, the greatest first.
fn push_downwards(
    alloc: Global,
    list: &mut Vec<Label>,
    first: usize,
    end: usize,
) -> Result<(), AllocError> {
    for number in (first..end).rev() {
        push(alloc, list, number)?;
    }
    Ok(())
}

// The labels of the numbers below an end.
fn upwards(alloc: Global, end: usize) -> Result<Vec<Label>, AllocError> {
    let mut labels = Vec::new(alloc);
    for number in 0..end {
        push(alloc, &mut labels, number)?;
    }
    Ok(labels)
}

fn kind_of(number: usize, last: usize) -> ItemKind {
    if number == last {
        ItemKind::Executable
    } else {
        ItemKind::SourceSet
    }
}

// Lets an item depend on so many right below it, and have one of ten public configurations.
fn set(alloc: Global, item: &mut Item, number: usize, width: usize) -> Result<(), AllocError> {
    let first = number.saturating_sub(width);
    push_downwards(alloc, &mut item.public_deps, first, number)?;
    push(alloc, &mut item.public_configs, number % 10)
}

// Puts the item of a number with others. It is put also where not all that it has could be set, which is an error.
fn put(
    alloc: Global,
    items: &mut IndexMap<Label, Item>,
    number: usize,
    width: usize,
    last: usize,
) -> Result<(), AllocError> {
    let label = numbered(alloc, number)?;
    let mut item = Item::new(alloc, kind_of(number, last));
    let is_set = set(alloc, &mut item, number, width);
    let is_put = insert(items, label, item);
    is_set?;
    is_put
}

fn items(alloc: Global, last: usize, width: usize) -> Result<IndexMap<Label, Item>, AllocError> {
    let mut items = IndexMap::new(alloc);
    for number in 0..=last {
        put(alloc, &mut items, number, width, last)?;
    }
    Ok(items)
}

fn tree(alloc: Global, last: usize, width: usize) -> Result<Tree, AllocError>
    ensures { IfOk result HoldsRecords }
{
    let default = Text::from_bytes(alloc, b"//t:t")?;
    let items = items(alloc, last, width)?;
    Ok(Tree::new(alloc, default, items))
}

// The graph with all of its targets resolved but the last.
fn resolved(alloc: Global, last: usize, width: usize) -> Result<Tree, AllocError>
    ensures { IfOk result HoldsRecords }
{
    let labels = upwards(alloc, last)?;
    let tree = tree(alloc, last, width)?;
    with_records(alloc, tree, labels)
}

// Whether these are all labels below the last, the greatest first.
fn are_all(alloc: Global, labels: &[Label], last: usize) -> Result<bool, AllocError> {
    let mut wanted = Vec::new(alloc);
    push_downwards(alloc, &mut wanted, 0, last)?;
    Ok(labels == wanted.as_slice())
}

fn inherits_all(alloc: Global, tree: &Tree, target: &Label, last: usize) -> Result<bool, AllocError>
    requires { HoldsRecords tree.now }
{
    match tree.inherited(alloc, target)? {
        None => Ok(false),
        Some(labels) => {
            let are_all = are_all(alloc, &labels, last);
            drop(labels);
            are_all
        }
    }
}

// Whether all ten configurations apply to the target.
fn has_ten(alloc: Global, tree: &Tree, target: &Label) -> Result<bool, AllocError>
    requires { HoldsRecords tree.now }
{
    match tree.applied(alloc, target)? {
        None => Ok(false),
        Some(labels) => Ok(labels.len() == 10),
    }
}

// Whether the last of a graph inherits all others, the greatest first, and ten configurations apply to it.
fn goes_through(alloc: Global, last: usize, width: usize) -> Result<bool, AllocError> {
    let target = numbered(alloc, last)?;
    let tree = resolved(alloc, last, width)?;
    let has_ten = has_ten(alloc, &tree, &target);
    let inherits_all = inherits_all(alloc, &tree, &target, last);
    drop(tree);
    drop(target);
    Ok(has_ten? && inherits_all?)
}

#[test]
fn large_graphs_are_resolved(rt: HostRuntime) -> Result<(), Fail> {
    for (last, width) in [(10_000, 1), (200, 20)] {
        assert!(rt; goes_through(rt.alloc(), last, width)?, "{last} {width}");
    }
    Ok(())
}

// Lets the first depend on the last.
fn close(alloc: Global, items: &mut IndexMap<Label, Item>, last: usize) -> Result<(), AllocError> {
    let label = numbered(alloc, 0)?;
    let mut first = Item::new(alloc, ItemKind::SourceSet);
    let is_set = push(alloc, &mut first.data_deps, last);
    let is_put = insert(items, label, first);
    is_set?;
    is_put
}

// How many edges the shortest cycle has on which a target lies; 0 where it lies on none.
fn edges_of(alloc: Global, tree: &Tree, target: &Label) -> Result<usize, AllocError> {
    match shortest_cycle(alloc, target, tree)? {
        None => Ok(0),
        Some(labels) => {
            let edges = labels.len();
            drop(labels);
            Ok(edges)
        }
    }
}

// Whether the shortest cycle on which the last lies has so many edges.
fn goes_round(alloc: Global, last: usize, width: usize, edges: usize) -> Result<bool, AllocError> {
    let target = numbered(alloc, last)?;
    let mut tree = tree(alloc, last, width)?;
    let is_closed = close(alloc, &mut tree.items, last);
    let found = edges_of(alloc, &tree, &target);
    drop(tree);
    drop(target);
    is_closed?;
    Ok(found? == edges)
}

#[test]
fn long_cycles_are_found(rt: HostRuntime) -> Result<(), Fail> {
    for (last, width, edges) in [(10_000, 1, 10_001), (200, 20, 11)] {
        assert!(rt;
            goes_round(rt.alloc(), last, width, edges)?,
            "{last} {width}"
        );
    }
    Ok(())
}
