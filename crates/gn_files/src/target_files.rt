// Files that several threads make: those of targets, and build.ninja.

ghost use Rattle.std.specs.Prelude.{◌≡◌, ◌<◌, IfOk, length, map, slice_index_or};
ghost use Rattle.gn_out_files.specs.Files.{put_of};
ghost use Rattle.gn_files.specs.declared.target_files.Piece.{Piece as PieceState};
ghost use Rattle.gn_files.specs.Making.{text_of, file_of, piece_of};

use crate::paths::path_of_target;
use crate::root::root_file;
use gn_beside::deal;
use gn_labels::Label;
use gn_ninja::{Claimant, Root, append_target};
use gn_out_files::OutFile;
use gn_paths::{Path, Text};
use gn_writing::Written;
use std::alloc::{AllocError, Global};
use std::thread::Threads;

// How many files a thread takes at once.
const FILES_AT_ONCE: usize = 8;

/// What the file of a target is made of: no more than threads need to know.
#[derive(Clone, Copy)]
pub(crate) struct TargetFile<'a> {
    /// The target.
    pub(crate) target: &'a Label,
    /// The output directory of its toolchain.
    pub(crate) out: &'a Path,
    /// What is written of it.
    pub(crate) written: Option<&'a Written>,
}

// The text of the file of a target; the empty text where nothing is written of it.
fn target_text(alloc: Global, written: Option<&Written>) -> Result<Text, AllocError>
    ensures { IfOk result (λ t. t ≡ text_of written.entry) }
{
    let mut text = Vec::new(alloc);
    if let Some(written) = written {
        append_target(alloc, &mut text, written)?;
    }
    // All files are held until the first one is put.
    text.shrink_to_fit();
    Ok(Text::from_vec(text))
}

// The file of a target.
fn make(alloc: Global, file: &TargetFile<'_>) -> Result<OutFile, AllocError>
    ensures { IfOk result (λ made. put_of made ≡ file_of file.now) }
{
    let bytes = target_text(alloc, file.written)?;
    let path = path_of_target(alloc, file.out, file.target)?;
    Ok(OutFile { path, bytes })
}

/// What build.ninja is made of.
#[derive(Clone, Copy)]
pub(crate) struct RootFile<'a> {
    /// The build directory.
    pub(crate) build: &'a Path,
    /// What it is made of but for its names.
    pub(crate) root: &'a Root,
    /// What is written of all targets.
    pub(crate) written: &'a [&'a Written],
    /// The targets of the default toolchain.
    pub(crate) claimants: &'a [Claimant<'a>],
}

/// What a file is made of.
#[derive(Clone, Copy)]
pub(crate) enum Piece<'a> {
    /// build.ninja.
    Root(RootFile<'a>),
    /// A file that is made already.
    Made(&'a OutFile),
    /// The file of a target.
    Target(TargetFile<'a>),
}

// A copy of a file.
fn copied(alloc: Global, file: &OutFile) -> Result<OutFile, AllocError>
    ensures { IfOk result (λ made. put_of made ≡ put_of file.now) }
{
    let path = file.path.copy(alloc)?;
    let bytes = file.bytes.copy(alloc)?;
    Ok(OutFile { path, bytes })
}

// The file of a piece.
fn make_piece(alloc: Global, piece: &Piece<'_>) -> Result<OutFile, AllocError>
    ensures { IfOk result (λ made. put_of made ≡ piece_of piece.now) }
{
    match piece {
        Piece::Root(root) => root_file(alloc, root.build, root.root, root.written, root.claimants),
        Piece::Made(file) => copied(alloc, file),
        Piece::Target(file) => make(alloc, file),
    }
}

/// The files of pieces, in their order. Several threads make them, each those of the next pieces that none has taken.
#[tactic(auto, using(crate::proofs::Crossing::label, crate::proofs::Crossing::path, crate::proofs::Crossing::written, crate::proofs::Crossing::root, crate::proofs::Crossing::out_file))]
pub(crate) fn make_all<R: Threads + Sync>(
    rt: &R,
    alloc: Global,
    pieces: &[Piece<'_>],
) -> Result<Vec<OutFile>, AllocError>
    ensures { IfOk result (λ made. map put_of made.items ≡ map piece_of pieces.now) }
{
    let make = |place: usize| -> Result<OutFile, AllocError>
        requires { place < length pieces.now }
        ensures { (other : PieceState) → IfOk result (λ made. put_of made ≡ piece_of (slice_index_or pieces.entry.now place other)) }
    { make_piece(alloc, &pieces[place]) };
    deal(rt, alloc, pieces.len(), FILES_AT_ONCE, &make)
}
