// The Ninja files of a build.

ghost use Rattle.std.specs.Prelude.{◌≡◌, IfOk, map};
ghost use Rattle.gn_labelled.specs.Graphs.{shape_of};
ghost use Rattle.gn_labelled.specs.Index.{lent};
ghost use Rattle.gn_resolved_meant.specs.Laws.{IsClosed};
ghost use Rattle.gn_toolchains.specs.Frames.{surroundings as given, IsOver};
ghost use Rattle.gn_resolve.specs.Whole.{AllEnd, AreResolved};
ghost use Rattle.gn_out_files.specs.Files.{put_of};
ghost use Rattle.gn_files.specs.Files.{files_of_build};
ghost use Rattle.gn_files.specs.Known.{AreAmong, IsProject};

use crate::files::known_files;
use crate::project::Project;
use gn_items::Item;
use gn_labelled::ItemIndex;
use gn_labels::Label;
use gn_out_files::OutFile;
use gn_resolve::{Resolved, resolve_all};
use gn_toolchains::{Frames, Surroundings};
use std::alloc::{AllocError, Global};
use std::mem::forget;
use std::thread::Threads;

// What never changes for the targets that are reached, and their records.
fn resolved_of<'a, R: Threads + Sync>(
    rt: &R,
    alloc: Global,
    surroundings: Surroundings<'a>,
    items: &[&'a Item],
    reached: &[Label],
) -> Result<(Frames<'a>, Resolved), AllocError>
    requires closed { IsClosed (shape_of (lent items.now)) reached.now }
    requires ends { AllEnd (lent items.now) reached.now }
    ensures { IfOk result (λ made. IsOver (given surroundings.entry) (lent items.now) reached.now made.0 × AreResolved (given surroundings.entry) (lent items.now) reached.now made.1) }
{
    let frames = Frames::of(alloc, surroundings, items, reached)?;
    match resolve_all(rt, alloc, surroundings, &frames, items, reached) {
        Ok(resolved) => Ok((frames, resolved)),
        Err(error) => {
            drop(frames);
            Err(error)
        }
    }
}

// What the Ninja files of a build are made of.
fn project_of<'a, 'b, R: Threads + Sync>(
    rt: &R,
    alloc: Global,
    surroundings: Surroundings<'a>,
    items: &'a ItemIndex<'b>,
    reached: &[Label],
    targets: &'a [Label],
) -> Result<Project<'a, 'b>, AllocError>
    requires closed { IsClosed (shape_of items.now) reached.now }
    requires ends { AllEnd items.now reached.now }
    ensures { IfOk result (IsProject (given surroundings.entry) items.now reached.now targets.now) }
{
    let made = resolved_of(rt, alloc, surroundings, items.items(), reached)?;
    let (frames, resolved) = made;
    Ok(Project {
        surroundings,
        frames,
        items,
        resolved,
        targets,
    })
}

/// The Ninja files of a build that generates these targets, which stand in label order: build.ninja, those of its toolchains and
/// those of its targets. The targets that are reached are those and all that dependencies lead to from them, and none of them may
/// reach a cycle. The files of targets are made by several threads, and are those that one thread makes of the targets in their order.
pub fn ninja_files<'a, R: Threads + Sync>(
    rt: &R,
    alloc: Global,
    surroundings: Surroundings<'a>,
    items: &'a ItemIndex<'_>,
    reached: &[Label],
    targets: &'a [Label],
) -> Result<Vec<OutFile>, AllocError>
    requires closed { IsClosed (shape_of items.now) reached.now }
    requires ends { AllEnd items.now reached.now }
    requires among { AreAmong targets.now reached.now }
    ensures { IfOk result (λ files. map put_of files.items ≡ files_of_build (given surroundings.entry) items.now targets.now) }
{
    let project = project_of(rt, alloc, surroundings, items, reached, targets)?;
    let files = known_files(rt, alloc, &project);
    // Nothing is made behind the files, so their parts needn't be let go one by one.
    forget(project);
    files
}
