// What is known around a target.

use gn_items::Tools;
use gn_paths::{Path, Text};

/// What never changes for the targets of a toolchain.
#[derive(Clone, Copy)]
pub struct Context<'a> {
    /// The build directory.
    pub build: &'a Path,
    /// The default toolchain, by the text of its label.
    pub default: &'a Text,
    /// The program that runs scripts, which may have options.
    pub program: &'a Text,
    /// The output directory of the toolchain: `root_out_dir`.
    pub out: &'a Path,
    /// The directory of the toolchain's generated files: `root_gen_dir`.
    pub generated: &'a Path,
    /// What stands before the names of the toolchain's tools in its rules.
    pub prefix: &'a Text,
    /// The tools of the toolchain.
    pub tools: &'a Tools,
    /// What texts of these tools have.
    pub bound: BoundNames,
}

/// Names that a compiled target binds only where a text of a tool of its toolchain has them.
#[derive(Clone, Copy)]
pub struct BoundNames {
    /// Whether `label_no_toolchain` is bound.
    pub label_no_toolchain: bool,
    /// Whether `root_gen_dir` is bound.
    pub root_gen_dir: bool,
    /// Whether `target_gen_dir` is bound.
    pub target_gen_dir: bool,
}
