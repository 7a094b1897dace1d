// What a build says of its files.

use gn_items::{Declaration, DefaultToolchain, Written};
use gn_paths::{Path, Text};
use indexmap::IndexSet;

/// The files that an execution writes.
#[derive(Clone, Copy)]
pub struct FilesWritten<'a> {
    /// The toolchain of the execution; the empty text for the default one.
    pub toolchain: &'a [u8],
    /// The files, in the order in which they are written. Of one path the last counts.
    pub files: &'a [Written],
}

/// What a build says of its files. All is lent.
#[derive(Clone, Copy)]
pub struct FileFacts<'a> {
    /// The build arguments that its executions declare.
    pub declarations: &'a [&'a Declaration],
    /// The default toolchain, as the build configuration names it.
    pub default: Option<&'a DefaultToolchain>,
    /// Whether an item has the label of the default toolchain, and is a toolchain.
    pub is_toolchain: bool,
    /// The files that its executions write, in the order of the build.
    pub executions: &'a [FilesWritten<'a>],
    /// What generated targets make, as it is seen from the build directory.
    pub made: &'a IndexSet<Text>,
    /// The build directory.
    pub build: &'a Path,
    /// The build files that are loaded.
    pub loaded: &'a [&'a Path],
    /// The files that are imported, each once.
    pub imported: &'a [&'a Path],
}
