// Where an evaluation takes place, as far as it never changes, and the blocks that are open.

ghost use Rattle.std.specs.Prelude.{◌≡◌};

use gn_faults::Stage;
use gn_paths::{Path, Text};
use gn_values::Overrides;

/// What never changes in an evaluation, whatever the file is. The evaluations of one toolchain share it.
#[derive(Drop)]
pub struct Context {
    /// The stage that its faults have.
    pub stage: Stage,
    /// The toolchain that the labels of its items have: that under which the file is evaluated.
    pub toolchain: Text,
    /// The toolchain that its faults have: the same, or the empty text for the default one.
    pub fault_toolchain: Text,
    /// The default toolchain, which a label that is shown leaves out; the empty text while it isn't known.
    pub default_toolchain: Text,
    /// The build directory.
    pub build_directory: Path,
    /// The source root, as the host names it.
    pub source_root: Text,
    /// The values that build arguments are given under the toolchain: of each name that of the last list that has it.
    pub overrides: Overrides,
}

/// The innermost block that is open and says what may be called in it. Those of conditions, loops, templates, defaults and
/// declared arguments aren't among them.
#[derive(Clone, Copy, Debug, PartialEq, Eq)]
pub enum OpenBlock {
    /// None is open.
    Nothing,
    /// That of a target, a configuration or a pool.
    Item,
    /// That of a toolchain.
    Toolchain,
    /// That of a tool, in a toolchain's.
    Tool,
}
