// Where a call stands.

ghost use Rattle.std.specs.Prelude.{◌≡◌, IfOk};
ghost use Rattle.gn_labels.specs.Toolchains.{toolchain_named};
ghost use Rattle.gn_paths.specs.Resolve.{path_meant};
ghost use Rattle.gn_calls_path.specs.Directories.{or_directory, out_named, out_directory, root_out_of};

use gn_labels::Named;
use gn_paths::{Path, Text, path_meant};
use std::alloc::{AllocError, Global};

/// Where a call stands: the directories and toolchains that its texts depend on.
#[derive(Drop)]
pub struct Where {
    /// The current directory, at which relative texts start: that of the file.
    pub directory: Path,
    /// The label of the current toolchain, spelled `//dir:name`; the empty text while the default one isn't known.
    pub toolchain: Text,
    /// The label of the default toolchain, spelled so; the empty text while it isn't known.
    pub default_toolchain: Text,
    /// The build directory.
    pub build: Path,
    /// The system's path of the source root.
    pub root: Text,
}

impl Where {
    /// `root_out_dir` of a toolchain where the call stands.
    pub(crate) fn root_out_of(&self, alloc: Global, toolchain: &Text) -> Result<Path, AllocError>
        ensures { IfOk result (λ d. d ≡ root_out_of self.now toolchain.now) }
    {
        out_directory(alloc, &self.build, &self.default_toolchain, toolchain)
    }
}

/// `root_out_dir` of a toolchain, in this build directory and under this default toolchain: the build directory for the default
/// one, and in it the directory of the toolchain's name for another.
#[tactic(auto, unfolding(crate::specs::Directories::out_directory))]
pub fn out_directory(
    alloc: Global,
    build: &Path,
    default_toolchain: &Text,
    toolchain: &Text,
) -> Result<Path, AllocError>
    ensures { IfOk result (λ d. d ≡ out_directory build.now default_toolchain.now toolchain.now) }
{
    if *toolchain == *default_toolchain {
        return build.copy(alloc);
    }
    out_named(alloc, build, toolchain.as_bytes())
}

/// The directory of a toolchain's name in the build directory.
fn out_named(alloc: Global, build: &Path, toolchain: &[u8]) -> Result<Path, AllocError>
    ensures { IfOk result (λ d. d ≡ out_named build.now (toolchain_named toolchain.now)) }
{
    match Named::of_toolchain(alloc, toolchain)? {
        Some(part) => directory_in(alloc, build, part.name.as_bytes()),
        None => build.copy(alloc),
    }
}

/// The directory of this name in another, and the other where the name is none.
fn directory_in(alloc: Global, build: &Path, name: &[u8]) -> Result<Path, AllocError>
    ensures { IfOk result (λ d. d ≡ or_directory build.now (path_meant build.now name.now)) }
{
    match path_meant(alloc, build, name)? {
        Ok(directory) => Ok(directory),
        Err(_) => build.copy(alloc),
    }
}
