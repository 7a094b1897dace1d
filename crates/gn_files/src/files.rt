// All Ninja files of a build.

ghost use Rattle.std.specs.Prelude.{◌≡◌, ◌++◌, ◌∷◌, IfOk, map};
ghost use Rattle.gn_ninja.specs.Claims.{claimant};
ghost use Rattle.gn_ninja.specs.Root.{root_of as root_held};
ghost use Rattle.gn_out_files.specs.Files.{put_of};
ghost use Rattle.gn_files.specs.Files.{toolchains_of, toolchains_used, toolchain_out, files_by};
ghost use Rattle.gn_files.specs.Known.{surroundings_in, known};
ghost use Rattle.gn_files.specs.Gathered.{IsGathered};
ghost use Rattle.gn_files.specs.Making.{file_of, root_made};

use crate::gathering::{Gathered, gather};
use crate::pieces::pieces_of;
use crate::project::Project;
use crate::root::root_of;
use crate::target_files::{RootFile, make_all};
use crate::toolchains::toolchain_files;
use crate::used::{toolchains_of, toolchains_used};
use gn_ninja::Root;
use gn_out_files::OutFile;
use gn_paths::{Path, Text};
use std::alloc::{AllocError, Global};
use std::thread::Threads;

// All files as pieces, behind those of toolchains, which are made already.
fn made_beside<R: Threads + Sync>(
    rt: &R,
    alloc: Global,
    build: &Path,
    made: &[OutFile],
    gathered: &Gathered<'_>,
    root: &Root,
) -> Result<Vec<OutFile>, AllocError>
    ensures { IfOk result (λ files. map put_of files.items
        ≡ root_made build.now (root_held root.now) (map (λ w. w.now) gathered.now.written.items) (map claimant gathered.now.claimants.items)
        ∷ map put_of made.now ++ map file_of gathered.now.files.items) }
{
    let first = RootFile {
        build,
        root,
        written: gathered.written.as_slice(),
        claimants: gathered.claimants.as_slice(),
    };
    let pieces = pieces_of(alloc, first, made, gathered.files.as_slice())?;
    make_all(rt, alloc, pieces.as_slice())
}

// All files by what is gathered of targets and by what build.ninja is made of: several threads make build.ninja and the files of
// targets.
fn files_beside<R: Threads + Sync>(
    rt: &R,
    alloc: Global,
    project: &Project<'_, '_>,
    toolchains: &[Text],
    gathered: &Gathered<'_>,
    root: &Root,
) -> Result<Vec<OutFile>, AllocError>
    ensures { IfOk result (λ files. map put_of files.items
        ≡ root_made project.now.surroundings.build.now (root_held root.now) (map (λ w. w.now) gathered.now.written.items) (map claimant gathered.now.claimants.items)
        ∷ map (toolchain_out (surroundings_in project.now) (known project.now) project.now.targets.now) toolchains.now
        ++ map file_of gathered.now.files.items) }
{
    let made = toolchain_files(alloc, project, toolchains)?;
    let files = made_beside(
        rt,
        alloc,
        project.surroundings.build,
        made.as_slice(),
        gathered,
        root,
    );
    drop(made);
    files
}

// All files by what is gathered of targets.
fn files_gathered<R: Threads + Sync>(
    rt: &R,
    alloc: Global,
    project: &Project<'_, '_>,
    toolchains: &[Text],
    gathered: &Gathered<'_>,
) -> Result<Vec<OutFile>, AllocError>
    requires toolchains { toolchains.now ≡ toolchains_used project.now.surroundings.default.now project.now.targets.now }
    requires gathered { IsGathered project.now gathered.now }
    ensures { IfOk result (λ files. map put_of files.items ≡ files_by (surroundings_in project.now) (known project.now) project.now.items.now project.now.targets.now) }
{
    let root = root_of(
        alloc,
        project,
        toolchains,
        &gathered.pools,
        gathered.claimants.as_slice(),
    )?;
    let files = files_beside(rt, alloc, project, toolchains, gathered, &root);
    drop(root);
    files
}

// All files by the toolchains of targets, and by those of them that have a file.
fn files_of_toolchains<R: Threads + Sync>(
    rt: &R,
    alloc: Global,
    project: &Project<'_, '_>,
    toolchains: &[Text],
    used: &[Text],
) -> Result<Vec<OutFile>, AllocError>
    requires toolchains { toolchains.now ≡ toolchains_of project.now.targets.now }
    requires used { used.now ≡ toolchains_used project.now.surroundings.default.now project.now.targets.now }
    ensures { IfOk result (λ files. map put_of files.items ≡ files_by (surroundings_in project.now) (known project.now) project.now.items.now project.now.targets.now) }
{
    let none = Text::new(alloc);
    let gathered = gather(alloc, project, toolchains, &none)?;
    let files = files_gathered(rt, alloc, project, used, &gathered);
    drop(gathered);
    files
}

/// The Ninja files by what is known: build.ninja, those of toolchains and those of targets. Several threads make them.
pub(crate) fn known_files<R: Threads + Sync>(
    rt: &R,
    alloc: Global,
    project: &Project<'_, '_>,
) -> Result<Vec<OutFile>, AllocError>
    ensures { IfOk result (λ files. map put_of files.items ≡ files_by (surroundings_in project.now) (known project.now) project.now.items.now project.now.targets.now) }
{
    let toolchains = toolchains_of(alloc, project.targets)?;
    let used = toolchains_used(alloc, project.surroundings.default, toolchains.as_slice())?;
    files_of_toolchains(rt, alloc, project, toolchains.as_slice(), used.as_slice())
}
