// What is found by labels among the items of executions, and what the rules forbid over these items.

use crate::defining::executions;
use crate::reading::{are_named, label, part};
use crate::rules::is_forbidden;
use gn_items::Item;
use gn_labelled::{ItemGraph, ItemIndex, NoRecords};
use gn_labels::Label;
use gn_paths::Text;
use std::alloc::{AllocError, Global};
use std::test::Fail;

/// On each line the items of executions; a label; the kind of what is found, if something is; and the labels that are defined again.
pub(crate) const FOUND: &str = "\
a group;b config|b|config|
a group;b config|c||
a group;a config|a|group|a
a group&a config|a|group|a
a config;b group&b pool;a pool&a group|a|config|b,a,a
a config;b group&b pool;a pool&a group|b|group|b,a,a
a group;a(u) config|a(u)|config|
a group;a(u) config;a(u) pool|a(u)|config|a(u)
b group&a executable&c group|a|executable|";

fn index(alloc: Global, executions: &[Vec<Item>]) -> Result<ItemIndex<'_>, AllocError> {
    let mut index = ItemIndex::new(alloc);
    for items in executions {
        index.add_all(items.as_slice())?;
    }
    Ok(index)
}

fn is_kind(item: Option<&Item>, name: &str) -> bool {
    match item {
        None => name.is_empty(),
        Some(item) => item.kind.name() == name.as_bytes(),
    }
}

fn labels_of(alloc: Global, items: &[&Item]) -> Result<Vec<Label>, AllocError> {
    let mut labels = Vec::new(alloc);
    for item in items {
        let label = item.label.copy(alloc)?;
        labels.push(label)?;
    }
    Ok(labels)
}

fn is_found(alloc: Global, index: &ItemIndex<'_>, row: &str) -> Result<bool, AllocError> {
    let label = label(alloc, part(row, '|', 1))?;
    let is_kind = is_kind(index.item(&label), part(row, '|', 2));
    drop(label);
    let again = labels_of(alloc, index.repeated())?;
    let are_named = are_named(&again, part(row, '|', 3));
    drop(again);
    Ok(is_kind && are_named)
}

/// Whether what a line says is found.
pub(crate) fn finds(alloc: Global, row: &str) -> Result<bool, Fail> {
    let executions = executions(alloc, part(row, '|', 0))?;
    let index = index(alloc, executions.as_slice())?;
    let is_so = is_found(alloc, &index, row);
    drop(index);
    drop(executions);
    Ok(is_so?)
}

/// Whether the graph of a line forbids what it says, over items.
pub(crate) fn forbids(alloc: Global, row: &str) -> Result<bool, Fail> {
    let executions = executions(alloc, part(row, '|', 1))?;
    let default = Text::from_bytes(alloc, b"//t:t")?;
    let items = index(alloc, executions.as_slice())?;
    let graph = ItemGraph {
        default: &default,
        items,
        records: NoRecords,
    };
    let is_so = is_forbidden(alloc, &graph, row);
    drop(graph);
    drop(default);
    drop(executions);
    Ok(is_so?)
}
