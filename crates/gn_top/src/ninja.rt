// The Ninja files of a build.

ghost use Rattle.std.specs.Prelude.{◌≡◌, None, IfOk, map};
ghost use Rattle.gn_build_faults.specs.Labels.{fault_of_labels};
ghost use Rattle.gn_build_faults.specs.Reaching.{targets_of as targets_meant};
ghost use Rattle.gn_files.specs.Files.{files_of_build};
ghost use Rattle.gn_out_files.specs.Files.{put_of};
ghost use Rattle.gn_toolchains.specs.Frames.{surroundings as given};
ghost use Rattle.gn_top.specs.Building.{faultless_view};
ghost use Rattle.gn_top.specs.Files.{ninja_files as files_meant};

use crate::building::surroundings_of;
use crate::faultless::Faultless;
use gn_build_faults::{faultless_targets_can_be_resolved, targets_have_their_dependencies};
use gn_files::ninja_files as files_of_targets;
use gn_labelled::ItemIndex;
use gn_labels::Label;
use gn_out_files::OutFile;
use gn_toolchains::Surroundings;
use std::alloc::{AllocError, Global};
use std::thread::Threads;

// The Ninja files of a build, by the index of its items, the targets that it generates, and all that dependencies lead to from these, of
// which no fault is told.
fn files_by<'a, R: Threads + Sync>(
    rt: &R,
    alloc: Global,
    surroundings: Surroundings<'a>,
    items: &'a ItemIndex<'_>,
    targets: &[Label],
    generated: &'a [Label],
) -> Result<Vec<OutFile>, AllocError>
    requires targets { targets.now ≡ targets_meant (given surroundings).default items.now generated.now }
    requires faultless { fault_of_labels (given surroundings) items.now targets.now ≡ None }
    ensures { IfOk result (λ files. map put_of files.items ≡ files_of_build (given surroundings.entry) items.now generated.now) }
{
    faultless_targets_can_be_resolved();
    targets_have_their_dependencies();
    files_of_targets(rt, alloc, surroundings, items, targets, generated)
}

/// The Ninja files of a build whose graph has no fault: build.ninja, those of its toolchains and those of its targets.
#[tactic(auto, unfolding(crate::specs::Files::ninja_files))]
pub(crate) fn ninja_files<R: Threads + Sync>(
    rt: &R,
    alloc: Global,
    build: &Faultless<'_, '_>,
) -> Result<Vec<OutFile>, AllocError>
    ensures { IfOk result (λ files. map put_of files.items ≡ files_meant (faultless_view build.now)) }
{
    files_by(
        rt,
        alloc,
        surroundings_of(build.build),
        build.items,
        build.targets,
        build.build.loaded.generated(),
    )
}
