// What seats take up by themselves.

ghost use Rattle.std.specs.Prelude.{◌≡◌, IfOk, IfErr, Some, false};
ghost use Rattle.gn_book.specs.Keys.{key_of};
ghost use Rattle.gn_book.specs.Tasks.{is_task, named_by, turn_of, turn_order, texts_in, IsTaskOf};
ghost use Rattle.std.specs.Ordering.{is_gt};
ghost use Rattle.gn_book.specs.declared.task.Task.TheVariants as variant;

use gn_items::Key;
use gn_labels::Label;
use gn_paths::{Path, Text};
use std::alloc::{AllocError, Global};

// A key that a seat takes up by itself. Their order is that in which they are given out.
#[derive(Drop, PartialEq, Eq, PartialOrd, Ord)]
pub(crate) enum Task {
    // The build configuration under a toolchain.
    Setup(Text),
    // The build file of a directory under a toolchain.
    Load(Path, Text),
    // The record of a target.
    Resolve(Label),
}

// A key that is lent. Tasks are in the order in which they are given out, and what is none comes first.
#[derive(Clone, Copy, PartialEq, Eq, PartialOrd, Ord)]
pub(crate) enum Turn<'a> {
    // The key is no task.
    NoTask,
    // The build configuration under a toolchain.
    Setup(&'a Text),
    // The build file of a directory under a toolchain.
    Load(&'a Path, &'a Text),
    // The record of a target.
    Resolve(&'a Label),
}

fn turn_of(key: &Key) -> Turn<'_>
    ensures { texts_in result ≡ turn_of (key_of key.now) }
{
    match key {
        Key::Read(_) => Turn::NoTask,
        Key::Import(..) => Turn::NoTask,
        Key::Setup(toolchain) => Turn::Setup(toolchain),
        Key::Load(dir, toolchain) => Turn::Load(dir, toolchain),
        Key::Resolve(label) => Turn::Resolve(label),
    }
}

// Whether a key is given out after another.
pub(crate) fn is_later(key: &Key, other: &Key) -> bool
    ensures { result ≡ is_gt (turn_order (key_of key.now) (key_of other.now)) }
{
    turn_of(key).cmp(&turn_of(other)).is_gt()
}

// Whether a key is a task.
pub(crate) fn is_task(key: &Key) -> bool
    ensures { result ≡ is_task (key_of key.now) }
{
    match key {
        Key::Read(_) => false,
        Key::Import(..) => false,
        Key::Setup(_) => true,
        Key::Load(..) => true,
        Key::Resolve(_) => true,
    }
}

fn setup_task(alloc: Global, toolchain: &Text) -> Result<Option<Task>, AllocError>
    ensures { IfOk result (λ t. t ≡ Some (variant.Setup toolchain.now)) }
{
    Ok(Some(Task::Setup(toolchain.copy(alloc)?)))
}

fn load_task(alloc: Global, dir: &Path, toolchain: &Text) -> Result<Option<Task>, AllocError>
    ensures { IfOk result (λ t. t ≡ Some (variant.Load dir.now toolchain.now)) }
{
    let dir = dir.copy(alloc)?;
    let toolchain = toolchain.copy(alloc)?;
    Ok(Some(Task::Load(dir, toolchain)))
}

fn resolve_task(alloc: Global, label: &Label) -> Result<Option<Task>, AllocError>
    ensures { IfOk result (λ t. t ≡ Some (variant.Resolve label.now)) }
{
    Ok(Some(Task::Resolve(label.copy(alloc)?)))
}

// The task of a key, if it is one.
pub(crate) fn task_of(alloc: Global, key: &Key) -> Result<Option<Task>, AllocError>
    ensures { IfOk result (IsTaskOf (key_of key.now)) }
{
    match key {
        Key::Read(_) => Ok(None),
        Key::Import(..) => Ok(None),
        Key::Setup(toolchain) => setup_task(alloc, toolchain),
        Key::Load(dir, toolchain) => load_task(alloc, dir, toolchain),
        Key::Resolve(label) => resolve_task(alloc, label),
    }
}

impl Task {
    // A key as a task. One that is none comes back.
    pub(crate) fn new(key: Key) -> Result<Task, Key>
        ensures task { IfOk result (λ t. named_by t ≡ key) }
        ensures other { IfErr result (λ k. (k ≡ key) × (is_task (key_of key) ≡ false)) }
    {
        match key {
            Key::Read(path) => Err(Key::Read(path)),
            Key::Import(time, toolchain, path) => Err(Key::Import(time, toolchain, path)),
            Key::Setup(toolchain) => Ok(Task::Setup(toolchain)),
            Key::Load(dir, toolchain) => Ok(Task::Load(dir, toolchain)),
            Key::Resolve(label) => Ok(Task::Resolve(label)),
        }
    }

    // The key.
    pub(crate) fn into_key(self) -> Key
        ensures { result ≡ named_by self }
    {
        match self {
            Task::Setup(toolchain) => Key::Setup(toolchain),
            Task::Load(dir, toolchain) => Key::Load(dir, toolchain),
            Task::Resolve(label) => Key::Resolve(label),
        }
    }
}
