// What the Ninja files of a build are made of.

ghost use Rattle.std.specs.Prelude.{◌≡◌, IfOk, option_map};
ghost use Rattle.gn_records.specs.Around.{around};
ghost use Rattle.gn_files.specs.Files.{out_of, toolchain_path, target_path};
ghost use Rattle.gn_files.specs.Known.{surroundings_in, known};

use crate::paths::{path_in, path_of_target};
use gn_labelled::ItemIndex;
use gn_labels::Label;
use gn_paths::{Path, Text};
use gn_records::{Context, Record};
use gn_resolve::Resolved;
use gn_toolchains::{Frames, Surroundings};
use std::alloc::{AllocError, Global};

/// What the Ninja files of a build are made of.
#[derive(Drop)]
pub(crate) struct Project<'a, 'b> {
    /// What never changes in the build.
    pub(crate) surroundings: Surroundings<'a>,
    /// What never changes for the targets of each toolchain.
    pub(crate) frames: Frames<'a>,
    /// The items that the build defines.
    pub(crate) items: &'a ItemIndex<'b>,
    /// The records of targets.
    pub(crate) resolved: Resolved,
    /// The targets that are generated, in label order.
    pub(crate) targets: &'a [Label],
}

/// What never changes for the targets of a toolchain, where it is known.
pub(crate) fn context_of<'a>(project: &'a Project<'_, '_>, toolchain: &Text) -> Option<Context<'a>>
    ensures { option_map around result ≡ (known project.now).around toolchain.now }
{
    project.frames.context(toolchain)
}

/// The output directory of a toolchain.
pub(crate) fn out_of<'a>(project: &'a Project<'_, '_>, toolchain: &Text) -> &'a Path
    ensures { result.now ≡ out_of (surroundings_in project.now) (known project.now) toolchain.now }
{
    match context_of(project, toolchain) {
        Some(context) => context.out,
        None => project.surroundings.build,
    }
}

/// The path of the file of a toolchain.
pub(crate) fn toolchain_path(
    alloc: Global,
    project: &Project<'_, '_>,
    toolchain: &Text,
) -> Result<Path, AllocError>
    ensures { IfOk result (λ p. p ≡ toolchain_path (surroundings_in project.now) (known project.now) toolchain.now) }
{
    path_in(alloc, out_of(project, toolchain), b"toolchain.ninja")
}

/// The path of the file of a target.
pub(crate) fn target_path(
    alloc: Global,
    project: &Project<'_, '_>,
    target: &Label,
) -> Result<Path, AllocError>
    ensures { IfOk result (λ p. p ≡ target_path (surroundings_in project.now) (known project.now) target.now) }
{
    path_of_target(alloc, out_of(project, &target.toolchain), target)
}

/// The record of a target, where it has one.
pub(crate) fn record_of<'a>(project: &'a Project<'_, '_>, target: &Label) -> Option<&'a Record>
    ensures { option_map (λ r. r.now) result ≡ (known project.now).target target.now }
{
    project.resolved.get(target)
}
