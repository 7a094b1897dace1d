// What the answer of a unit says it needs.

use gn_labels::Label;
use gn_paths::Text;

/// What a target needs, as far as loading goes.
#[derive(Debug, Drop)]
pub struct TargetNeeds {
    /// The name of the target.
    pub name: Text,
    /// Its dependencies.
    pub deps: Vec<Label>,
    /// What else it needs, as its configurations and its pool.
    pub others: Vec<Label>,
}

/// What a toolchain needs, as far as loading goes.
#[derive(Debug, Drop)]
pub struct ToolchainNeeds {
    /// The text of the toolchain's label.
    pub name: Text,
    /// The pools of its tools.
    pub pools: Vec<Label>,
}

/// What a unit that is done leaves, as far as loading goes.
#[derive(Debug, Drop)]
pub struct UnitNeeds {
    /// The default toolchain, by the text of its label: only that of the default toolchain's build configuration counts.
    pub default: Text,
    /// The targets of a build file.
    pub targets: Vec<TargetNeeds>,
    /// The toolchains of a build file.
    pub toolchains: Vec<ToolchainNeeds>,
}
