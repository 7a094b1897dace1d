// Where Ninja files stand.

ghost use Rattle.std.specs.Prelude.{◌≡◌, ◌++◌, IfOk, codes};
ghost use Rattle.gn_paths.specs.Directory.{obj_directory_of};
ghost use Rattle.gn_files.specs.Files.{path_in};

use gn_labels::Label;
use gn_paths::{Path, Text, obj_directory, path_meant};
use std::alloc::{AllocError, Global};

/// The path that a name means in a directory; where it is no path, the directory stands for it.
#[tactic(auto, unfolding(crate::specs::Files::path_in))]
pub(crate) fn path_in(alloc: Global, directory: &Path, name: &[u8]) -> Result<Path, AllocError>
    ensures { IfOk result (λ p. p ≡ path_in directory.now name.now) }
{
    match path_meant(alloc, directory, name)? {
        Ok(path) => Ok(path),
        Err(_) => directory.copy(alloc),
    }
}

// The name of a target's file.
fn file_name(alloc: Global, name: &Text) -> Result<Text, AllocError>
    ensures { IfOk result (λ n. n ≡ name.now ++ codes ".ninja") }
{
    let mut text = name.copy(alloc)?;
    text.append(b".ninja")?;
    Ok(text)
}

/// The path of the file of a target, whose toolchain has this output directory.
pub(crate) fn path_of_target(alloc: Global, out: &Path, target: &Label) -> Result<Path, AllocError>
    ensures { IfOk result (λ p. p ≡ path_in (obj_directory_of out.now target.now.dir) (target.now.name ++ codes ".ninja")) }
{
    let directory = obj_directory(alloc, out, &target.dir)?;
    let name = file_name(alloc, &target.name)?;
    path_in(alloc, &directory, name.as_bytes())
}
