// What never changes in a build.

use gn_paths::{Path, Text};

/// What never changes in a build.
#[derive(Clone, Copy)]
pub struct Surroundings<'a> {
    /// The build directory.
    pub build: &'a Path,
    /// The default toolchain, by the text of its label.
    pub default: &'a Text,
    /// The program that runs scripts, which may have options.
    pub program: &'a Text,
}
