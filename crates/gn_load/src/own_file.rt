// The file of a build file, which the work on it needs first.

ghost use Rattle.std.specs.Prelude.{◌≡◌, IfOk};
ghost use Rattle.gn_executions.specs.Units.{build_file_of, own_place};
ghost use Rattle.gn_book.specs.Keys.{key_of};
ghost use Rattle.gn_book.specs.Logs.{state_of};
ghost use Rattle.gn_load.specs.Own.{IsUnfiledAt, NeedsOwn};

use crate::driver::path_of;
use gn_answers::{Answer, find};
use gn_book::Book;
use gn_items::Key;
use gn_paths::{Path, PathError, Place, resolve};
use std::alloc::{AllocError, Global};

// The path of the build file of a directory.
#[tactic(auto, using(gn_executions::proofs::BuildFiles::build_file_resolved))]
fn own_path(alloc: Global, directory: &Path) -> Result<Path, AllocError>
    ensures { IfOk result (λ path. path ≡ build_file_of directory.now) }
{
    match resolve(alloc, directory, b"BUILD.gn") {
        Ok(path) => Ok(path),
        Err(PathError::Memory) => Err(AllocError),
        Err(PathError::AboveRoot) => unreachable!(),
        Err(PathError::BadPath) => unreachable!(),
    }
}

/// Where the file at a path asks for its own content.
pub(crate) fn own_place(alloc: Global, path: &Path) -> Result<Place, AllocError>
    ensures { IfOk result (λ place. place ≡ own_place path.now) }
{
    Ok(Place {
        file: path.as_text().copy(alloc)?,
        line: 1,
        column: 1,
    })
}

// A path, if nothing is filed there.
fn unfiled(book: &Book<Answer>, path: Path) -> Option<Path>
    ensures { IsUnfiledAt (state_of book.now).filed path result }
{
    let read = Key::Read(path);
    match find(book, &read) {
        Some(_) => {
            drop(read);
            None
        }
        None => Some(path_of(read)),
    }
}

// The path of the build file of a directory, if nothing is filed there.
fn unfiled_own(
    alloc: Global,
    book: &Book<Answer>,
    directory: &Path,
) -> Result<Option<Path>, AllocError>
    ensures { IfOk result (IsUnfiledAt (state_of book.now).filed (build_file_of directory.now)) }
{
    let path = own_path(alloc, directory)?;
    Ok(unfiled(book, path))
}

/// The path of the file of a build file, if nothing is filed there: the work on that needs it first.
pub(crate) fn own_need(
    alloc: Global,
    book: &Book<Answer>,
    key: &Key,
) -> Result<Option<Path>, AllocError>
    ensures { IfOk result (NeedsOwn (state_of book.now).filed (key_of key.now)) }
{
    match key {
        Key::Load(directory, _) => unfiled_own(alloc, book, directory),
        Key::Setup(_) => Ok(None),
        Key::Read(_) => Ok(None),
        Key::Import(..) => Ok(None),
        Key::Resolve(_) => Ok(None),
    }
}
