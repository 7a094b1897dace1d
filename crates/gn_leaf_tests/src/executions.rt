// Keys, and the names of executions.

use crate::rows::{field, number, table};
use gn_items::{Key, When, import_name, load_name};
use gn_labels::Label;
use gn_paths::{Path, PathError, Text, resolve};
use std::alloc::{AllocError, Global};
use std::test::Fail;

/// What is executed, the build file of a directory or a file that is imported, under which toolchain, at which path, and its name.
pub(crate) const NAMED: &str = table! {
    "load", "", "//a", "L//a";
    "load", "//t:t", "//a", ".....L//t:t//a";
    "import", "", "//a", "U//a";
    "early import", "", "//a", "E//a";
    "import", "//t:t", "/s//b.gni", ".....U//t:t/s//b.gni";
};

fn name(alloc: Global, executed: &str, toolchain: &Text, path: &Path) -> Result<Text, AllocError> {
    match executed {
        "load" => load_name(alloc, path, toolchain),
        "early import" => import_name(alloc, When::Early, toolchain, path),
        _ => import_name(alloc, When::Usual, toolchain, path),
    }
}

fn at_root(alloc: Global, text: &str) -> Result<Path, PathError> {
    let root = Path::root(alloc)?;
    let path = resolve(alloc, &root, text.as_bytes());
    drop(root);
    path
}

fn is_named_at(alloc: Global, row: &str, path: &Path) -> Result<bool, AllocError> {
    let toolchain = Text::from_bytes(alloc, field(row, 1).as_bytes())?;
    let name = name(alloc, field(row, 0), &toolchain, path);
    drop(toolchain);
    let name = name?;
    let is_so = name.as_bytes() == field(row, 3).as_bytes();
    drop(name);
    Ok(is_so)
}

/// Whether the execution of a row has its name.
pub(crate) fn is_named(alloc: Global, row: &str) -> Result<bool, Fail> {
    let path = at_root(alloc, field(row, 2))?;
    let is_named = is_named_at(alloc, row, &path);
    drop(path);
    Ok(is_named?)
}

/// A kind of keys, by its number, and another kind.
pub(crate) const KINDS: &str = table! {
    0, 1;
    1, 2;
    2, 3;
    3, 4;
    4, 0;
};

// A key of each kind, by a number.
fn key(alloc: Global, kind: usize) -> Result<Key, AllocError> {
    let root = Path::root(alloc)?;
    let text = Text::new(alloc);
    let key = match kind {
        0 => Key::Read(root),
        1 => Key::Import(When::Early, text, root),
        2 => Key::Setup(text),
        3 => Key::Load(root, text),
        _ => Key::Resolve(Label {
            dir: root,
            name: Text::new(alloc),
            toolchain: text,
        }),
    };
    Ok(key)
}

fn copied(alloc: Global, kind: usize) -> Result<Key, AllocError> {
    let key = key(alloc, kind)?;
    let copied = key.copy(alloc);
    drop(key);
    copied
}

fn is_key(alloc: Global, copy: &Key, kind: usize) -> Result<bool, AllocError> {
    let key = key(alloc, kind)?;
    let is_same = *copy == key;
    drop(key);
    Ok(is_same)
}

/// Whether a copy of the key of a kind is that key, and not the one of another kind.
pub(crate) fn is_told(alloc: Global, row: &str) -> Result<bool, AllocError> {
    let copy = copied(alloc, number(row, 0))?;
    let is_same = is_key(alloc, &copy, number(row, 0));
    let is_other = is_key(alloc, &copy, number(row, 1));
    drop(copy);
    Ok(is_same? && !is_other?)
}
