// The executions of a build, in their order.

ghost use Rattle.std.specs.Prelude.{◌≡◌, ◌∷◌, [], IfOk, OnOk, Some, length, map, option_map};
ghost use Rattle.gn_closure.specs.Reach.{Setup, Load};
ghost use Rattle.gn_core.specs.Keys.{Import, Unit_of};
ghost use Rattle.gn_labels.specs.Labels.{toolchain_key};
ghost use Rattle.gn_book.specs.Keys.{key_of, layer_at};
ghost use Rattle.gn_builds.specs.Rest.{AreInOrder};
ghost use Rattle.gn_judging.specs.Whole.{text_key};
ghost use Rattle.gn_judging.specs.Executions.{ranked, texts_of, texts_in, IsPut, AreNumbered};

use crate::ordered::put_in_order;
use gn_answers::Answer;
use gn_book::{Book, KeyId};
use gn_items::{Key, When};
use gn_paths::{Path, Text};
use std::alloc::{AllocError, Global};

// What is executed under a toolchain, in the order of executions.
#[derive(Clone, Copy, PartialEq, Eq, PartialOrd, Ord)]
pub(crate) enum Execution<'a> {
    // The build configuration.
    Setup,
    // An import of the build configuration: the path of its file.
    Early(&'a Path),
    // Another import.
    Usual(&'a Path),
    // The build file of a directory.
    Load(&'a Path),
}

// An execution as it is sorted. Keys that are made with one default toolchain are in the order of executions.
#[derive(Clone, Copy, PartialEq, Eq, PartialOrd, Ord)]
pub(crate) struct ExecutionKey<'a> {
    // The toolchain, and None where that is the default one.
    pub(crate) toolchain: Option<&'a Text>,
    pub(crate) execution: Execution<'a>,
}

// The toolchain, unless it is the default one.
pub(crate) fn other_than<'a>(toolchain: &'a Text, default: &Text) -> Option<&'a Text>
    ensures { text_key result ≡ toolchain_key default.now toolchain.now }
{
    if *toolchain == *default {
        None
    } else {
        Some(toolchain)
    }
}

// The key of an execution under a toolchain.
fn keyed<'a>(
    toolchain: &'a Text,
    default: &Text,
    execution: Execution<'a>,
) -> Option<ExecutionKey<'a>>
    ensures { option_map texts_of result ≡ Some (toolchain_key default.now toolchain.now ∷ ranked execution.entry) }
{
    let toolchain = other_than(toolchain, default);
    Some(ExecutionKey {
        toolchain,
        execution,
    })
}

// The key of an import.
fn import_execution<'a>(
    when: When,
    toolchain: &'a Text,
    path: &'a Path,
    none: &Text,
    default: &Text,
) -> Option<ExecutionKey<'a>>
    requires { none.now ≡ [] }
    ensures { option_map texts_of result ≡ texts_in default.now (Import (layer_at when toolchain.now) path.now) }
{
    match when {
        When::Early => keyed(toolchain, none, Execution::Early(path)),
        When::Usual => keyed(toolchain, default, Execution::Usual(path)),
    }
}

// The execution that a key names, if it names one. Keys of loading name the default toolchain of a build configuration, and of what it
// imports, by the empty text.
fn execution_of<'a>(key: &'a Key, none: &Text, default: &Text) -> Option<ExecutionKey<'a>>
    requires { none.now ≡ [] }
    ensures { option_map texts_of result ≡ texts_in default.now (key_of key.now) }
{
    match key {
        Key::Read(_) => None,
        Key::Import(when, toolchain, path) => {
            import_execution(*when, toolchain, path, none, default)
        }
        Key::Setup(toolchain) => keyed(toolchain, none, Execution::Setup),
        Key::Load(directory, toolchain) => keyed(toolchain, default, Execution::Load(directory)),
        Key::Resolve(_) => None,
    }
}

// Puts the number of a key behind others, if it names an execution.
fn put<'a>(
    entries: &mut Vec<(ExecutionKey<'a>, KeyId)>,
    key: &'a Key,
    number: KeyId,
    none: &Text,
    default: &Text,
) -> Result<(), AllocError>
    requires { none.now ≡ [] }
    ensures { OnOk result (IsPut (texts_in default.now (key_of key.now)) number entries.old.items entries.new.items) }
{
    match execution_of(key, none, default) {
        None => Ok(()),
        Some(execution) => {
            entries.push((execution, number))?;
            Ok(())
        }
    }
}

// The numbers of all executions.
fn numbered<'a>(
    alloc: Global,
    book: &'a Book<Answer>,
    default: &Text,
) -> Result<Vec<(ExecutionKey<'a>, KeyId)>, AllocError>
    ensures { IfOk result (λ entries. AreNumbered default.now book.now (length book.now.keys) entries.items) }
{
    let none = Text::new(alloc);
    let mut entries = Vec::new(alloc);
    for number in 0..book.len() {
        put(&mut entries, book.key(number), number, &none, default)?;
    }
    Ok(entries)
}

// The numbers of entries.
fn numbers_of(
    alloc: Global,
    entries: &[(ExecutionKey<'_>, KeyId)],
) -> Result<Vec<KeyId>, AllocError>
    ensures { IfOk result (λ numbers. numbers.items ≡ map (λ e. e.1) entries.now) }
{
    let mut numbers = Vec::with_capacity(alloc, entries.len())?;
    for (_, number) in entries {
        numbers.push(*number)?;
    }
    Ok(numbers)
}

/// The numbers of all executions, in their order: by toolchain, with the default one first; of each toolchain the build configuration,
/// what it imports, by path, the other imports, by path, and the build files, by directory.
pub(crate) fn executions_in_order(
    alloc: Global,
    book: &Book<Answer>,
    default: &Text,
) -> Result<Vec<KeyId>, AllocError>
    ensures { IfOk result (λ numbers. AreInOrder default.now book.now numbers.items) }
{
    book.keys_differ();
    let mut entries = numbered(alloc, book, default)?;
    put_in_order(&mut entries)?;
    numbers_of(alloc, &entries)
}
