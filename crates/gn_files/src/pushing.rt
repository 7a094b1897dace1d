// Files one after the other.

ghost use Rattle.std.specs.Prelude.{◌≡◌, ◌++◌, ◌∷◌, [], OnOk, map};
ghost use Rattle.gn_out_files.specs.Files.{put_of};
ghost use Rattle.gn_files.specs.Files.{file};

use gn_out_files::OutFile;
use gn_paths::{Path, Text};
use std::alloc::AllocError;

/// Puts a file behind the others.
pub(crate) fn push_file(out: &mut Vec<OutFile>, path: Path, bytes: Text) -> Result<(), AllocError>
    ensures { OnOk result (map put_of out.new.items ≡ map put_of out.old.items ++ file path bytes ∷ []) }
{
    out.push(OutFile { path, bytes })?;
    Ok(())
}
