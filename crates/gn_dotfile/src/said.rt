// What a dotfile says.

use gn_paths::{Path, Text, Texts};
use gn_values::Overrides;

/// What a dotfile says.
#[derive(Drop)]
pub struct Dotfile {
    /// The path of the build configuration.
    pub configuration: Path,
    /// The values that build arguments are given.
    pub arguments: Overrides,
    /// The source tree in which files are looked for that the source root lacks, if there is one.
    pub secondary: Option<Path>,
    /// The program that runs scripts.
    pub executable: Text,
    /// What it printed, in order.
    pub prints: Texts,
}
