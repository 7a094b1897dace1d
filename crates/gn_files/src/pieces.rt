// All files as pieces, in their order.

ghost use Rattle.std.specs.Prelude.{◌≡◌, ◌++◌, ◌∷◌, [], IfOk, OnOk, map};
ghost use Rattle.gn_ninja.specs.Claims.{claimant};
ghost use Rattle.gn_ninja.specs.Root.{root_of as root_held};
ghost use Rattle.gn_out_files.specs.Files.{put_of};
ghost use Rattle.gn_files.specs.Making.{file_of, root_made, piece_of};

use crate::target_files::{Piece, RootFile, TargetFile};
use gn_out_files::OutFile;
use std::alloc::{AllocError, Global};

// Puts files that are made already behind the others.
fn add_made<'a>(pieces: &mut Vec<Piece<'a>>, made: &'a [OutFile]) -> Result<(), AllocError>
    ensures { OnOk result (map piece_of pieces.new.items ≡ map piece_of pieces.old.items ++ map put_of made.now) }
{
    for file in made {
        pieces.push(Piece::Made(file))?;
    }
    Ok(())
}

// Puts the files of targets behind the others.
fn add_targets<'a>(pieces: &mut Vec<Piece<'a>>, files: &[TargetFile<'a>]) -> Result<(), AllocError>
    ensures { OnOk result (map piece_of pieces.new.items ≡ map piece_of pieces.old.items ++ map file_of files.now) }
{
    for file in files {
        pieces.push(Piece::Target(*file))?;
    }
    Ok(())
}

/// build.ninja, files that are made already, and the files of targets.
pub(crate) fn pieces_of<'a>(
    alloc: Global,
    root: RootFile<'a>,
    made: &'a [OutFile],
    files: &[TargetFile<'a>],
) -> Result<Vec<Piece<'a>>, AllocError>
    ensures { IfOk result (λ pieces. map piece_of pieces.items
        ≡ root_made root.entry.build.now (root_held root.entry.root.now) (map (λ w. w.now) root.entry.written.now) (map claimant root.entry.claimants.now)
        ∷ map put_of made.now ++ map file_of files.now) }
{
    let mut pieces = Vec::new(alloc);
    pieces.push(Piece::Root(root))?;
    add_made(&mut pieces, made)?;
    add_targets(&mut pieces, files)?;
    Ok(pieces)
}
