// What there is at a path, as a source tells it.

ghost use Rattle.std.specs.Prelude.{◌≡◌, ◌≤◌, Some, IfOk, length};
ghost use Rattle.gn_value_model.specs.Limits.{max_bytes};
ghost use Rattle.gn_outside.specs.Tree.{Tree, read_of};
ghost use Rattle.gn_projects.specs.Files.{content_in};
ghost use Rattle.gn_answers.specs.Answers.{content_view};
ghost use Rattle.gn_answers.specs.Reading.{IsContent, IsReadBy};

use crate::answer::FileContent;
use crate::file_bytes::FileBytes;
use gn_outside::{ReadStop, Source};
use gn_paths::Path;
use std::alloc::Global;

/// Why the work on a claim has no end.
#[derive(Clone, Copy, Debug, PartialEq, Eq)]
pub enum PerformStop {
    /// The read has failed.
    Failed,
    /// Want of memory.
    Memory,
}

// The bytes of a file, which are shared.
fn content_of(alloc: Global, bytes: Vec<u8>) -> Result<FileContent, PerformStop>
    requires { length bytes.items ≤ max_bytes }
    ensures { IsContent bytes.items result }
{
    match FileBytes::new(alloc, bytes) {
        Ok(file) => Ok(FileContent::Bytes(file)),
        Err(_) => Err(PerformStop::Memory),
    }
}

/// What the source has at a path.
pub fn read_content<S: Source>(
    alloc: Global,
    path: &Path,
    source: &mut S,
) -> Result<FileContent, PerformStop>
    ensures content { IfOk result (λ content. (tree : Tree) → (S.state source.old).tree ≡ Some tree → content_view content ≡ content_in (read_of tree path.now)) }
    ensures reads { IsReadBy path.now (S.state source.old) (S.state source.new) result }
{
    match source.read(alloc, path.as_str()) {
        Ok(Some(bytes)) => content_of(alloc, bytes),
        Ok(None) => Ok(FileContent::Absent),
        Err(ReadStop::TooBig(_)) => Ok(FileContent::TooBig),
        Err(ReadStop::Failed) => Err(PerformStop::Failed),
        Err(ReadStop::Memory) => Err(PerformStop::Memory),
    }
}
