// Graphs that texts describe. `;` separates items, and ` ` the name of an item, its kind and its lists. A list stands as `deps=a,b`.
// All items stand in the root directory, under the default toolchain `//t:t`, or under `//t:u` where `(u)` stands behind the name. The
// line of an item's place is its number, from 1 on.

ghost use Rattle.std.specs.Prelude.{IfOk};
ghost use Rattle.gn_chains_tests.specs.Trees.{HoldsRecords};

use crate::tree::{Item, Tree};
use gn_labels::{Label, Pattern, PatternError};
use gn_paths::{Path, Text};
use gn_rows::ItemKind;
use indexmap::IndexMap;
use std::alloc::{AllocError, Global};
use std::test::Fail;

/// What stands at a place, from 0, between marks; nothing where there is none.
pub(crate) fn part(text: &str, mark: char, place: usize) -> &str {
    text.split(mark).nth(place).unwrap_or("")
}

// The toolchain of a name.
fn toolchain_of(name: &str) -> &'static [u8] {
    if part(name, '(', 1).is_empty() {
        b"//t:t"
    } else {
        b"//t:u"
    }
}

/// The label of a name.
pub(crate) fn label(alloc: Global, name: &str) -> Result<Label, AllocError> {
    Ok(Label {
        dir: Path::root(alloc)?,
        name: Text::from_bytes(alloc, part(name, '(', 0).as_bytes())?,
        toolchain: Text::from_bytes(alloc, toolchain_of(name))?,
    })
}

fn push(alloc: Global, list: &mut Vec<Label>, name: &str) -> Result<(), AllocError> {
    let label = label(alloc, name)?;
    list.push(label)?;
    Ok(())
}

/// Puts the labels of names behind others.
pub(crate) fn push_all(
    alloc: Global,
    list: &mut Vec<Label>,
    names: &str,
) -> Result<(), AllocError> {
    for name in names.split_terminator(',') {
        push(alloc, list, name)?;
    }
    Ok(())
}

/// The kind that a text names.
pub(crate) fn kind_named(name: &str) -> ItemKind {
    match name {
        "config" => ItemKind::Config,
        "executable" => ItemKind::Executable,
        "loadable_module" => ItemKind::LoadableModule,
        "shared_library" => ItemKind::SharedLibrary,
        "source_set" => ItemKind::SourceSet,
        "static_library" => ItemKind::StaticLibrary,
        "action" => ItemKind::Action,
        "pool" => ItemKind::Pool,
        _ => ItemKind::Group,
    }
}

fn list_named<'a>(item: &'a mut Item, variable: &str) -> &'a mut Vec<Label> {
    match variable {
        "public_deps" => &mut item.public_deps,
        "deps" => &mut item.deps,
        "data_deps" => &mut item.data_deps,
        "all_dependent_configs" => &mut item.all_dependent_configs,
        "public_configs" => &mut item.public_configs,
        "pool" => &mut item.pool,
        _ => &mut item.configs,
    }
}

fn pattern(alloc: Global, text: &str) -> Result<Pattern, PatternError> {
    match Path::root(alloc) {
        Ok(root) => Pattern::read(alloc, text.as_bytes(), &root),
        Err(_) => Err(PatternError::Memory),
    }
}

fn push_pattern(alloc: Global, list: &mut Vec<Pattern>, text: &str) -> Result<(), Fail> {
    let pattern = pattern(alloc, text)?;
    list.push(pattern)?;
    Ok(())
}

/// The patterns of a list.
pub(crate) fn patterns(alloc: Global, texts: &str) -> Result<Vec<Pattern>, Fail> {
    let mut list = Vec::new(alloc);
    for text in texts.split_terminator(',') {
        push_pattern(alloc, &mut list, text)?;
    }
    Ok(list)
}

fn set(alloc: Global, item: &mut Item, variable: &str, names: &str) -> Result<(), Fail> {
    match variable {
        "testonly" => item.testonly = true,
        "visibility" => item.visibility = Some(patterns(alloc, names)?),
        "assert_no_deps" => item.assert_no_deps = patterns(alloc, names)?,
        _ => push_all(alloc, list_named(item, variable), names)?,
    }
    Ok(())
}

fn set_all(alloc: Global, item: &mut Item, text: &str) -> Result<(), Fail> {
    for list in text.split(' ').skip(2) {
        set(alloc, item, part(list, '=', 0), part(list, '=', 1))?;
    }
    Ok(())
}

/// Puts an item with others, in the place of one that has its label.
pub(crate) fn insert(
    items: &mut IndexMap<Label, Item>,
    label: Label,
    item: Item,
) -> Result<(), AllocError> {
    match items.insert(label, item) {
        Ok(old) => {
            drop(old);
            Ok(())
        }
        Err(failed) => {
            drop(failed);
            Err(AllocError)
        }
    }
}

// Puts the item that a text describes with others. It is put also where not all that it has could be set, which is an error.
fn put(
    alloc: Global,
    items: &mut IndexMap<Label, Item>,
    text: &str,
    line: u32,
) -> Result<(), Fail> {
    let label = label(alloc, part(text, ' ', 0))?;
    let mut item = Item::new(alloc, kind_named(part(text, ' ', 1)));
    item.place.line = line;
    let is_set = set_all(alloc, &mut item, text);
    let is_put = insert(items, label, item);
    is_set?;
    Ok(is_put?)
}

fn items(alloc: Global, graph: &str) -> Result<IndexMap<Label, Item>, Fail> {
    let mut items = IndexMap::new(alloc);
    let mut line = 0u32;
    for text in graph.split(';') {
        line = line.saturating_add(1);
        put(alloc, &mut items, text, line)?;
    }
    Ok(items)
}

/// The labels of the items that a text describes.
pub(crate) fn labels(alloc: Global, graph: &str) -> Result<Vec<Label>, AllocError> {
    let mut labels = Vec::new(alloc);
    for text in graph.split(';') {
        push(alloc, &mut labels, part(text, ' ', 0))?;
    }
    Ok(labels)
}

/// The graph that a text describes, with no target resolved.
pub(crate) fn unresolved(alloc: Global, graph: &str) -> Result<Tree, Fail>
    ensures { IfOk result HoldsRecords }
{
    let default = Text::from_bytes(alloc, b"//t:t")?;
    let items = items(alloc, graph)?;
    Ok(Tree::new(alloc, default, items))
}

/// A graph with these targets resolved, each of which stands behind its dependencies.
pub(crate) fn with_records(
    alloc: Global,
    mut tree: Tree,
    targets: Vec<Label>,
) -> Result<Tree, AllocError>
    requires { HoldsRecords tree }
    ensures { IfOk result HoldsRecords }
{
    let are_resolved = tree.resolve_all(alloc, &targets);
    drop(targets);
    match are_resolved {
        Ok(_) => Ok(tree),
        Err(error) => {
            drop(tree);
            Err(error)
        }
    }
}

/// The graph that a text describes, with all of its targets resolved.
pub(crate) fn resolved(alloc: Global, graph: &str) -> Result<Tree, Fail>
    ensures { IfOk result HoldsRecords }
{
    let labels = labels(alloc, graph)?;
    let tree = unresolved(alloc, graph)?;
    Ok(with_records(alloc, tree, labels)?)
}

fn is_named(label: &Label, name: Option<&str>) -> bool {
    match name {
        None => false,
        Some(name) => {
            label.name.as_bytes() == part(name, '(', 0).as_bytes()
                && label.toolchain.as_bytes() == toolchain_of(name)
        }
    }
}

/// Whether the labels have these names, in this order.
pub(crate) fn are_named(labels: &[Label], names: &str) -> bool {
    let mut names = names.split_terminator(',');
    for label in labels {
        if !is_named(label, names.next()) {
            return false;
        }
    }
    names.next().is_none()
}
