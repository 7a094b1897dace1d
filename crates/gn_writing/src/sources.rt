// What becomes of the sources of a compiled target.

ghost use Rattle.std.specs.Prelude.{◌≡◌, IfOk, map};
ghost use Rattle.gn_paths.specs.Rebase.{seen_from};
ghost use Rattle.gn_writing.specs.Sources.{is_cxx, is_asm, use_of_extension, use_of};

use gn_paths::{Path, PathPart, Text, Texts, part};
use gn_rows::ToolName;
use std::alloc::{AllocError, Global};

/// What becomes of a source.
#[derive(Clone, Copy, Debug, PartialEq, Eq)]
pub enum SourceUse {
    /// This tool builds it.
    Built(ToolName),
    /// It is an object already.
    Object,
    /// It isn't built.
    NotBuilt,
}

fn is_cxx(extension: &[u8]) -> bool
    ensures { result ≡ is_cxx extension.now }
{
    extension == b"cc".as_slice()
        || (extension == b"cpp".as_slice() || extension == b"cxx".as_slice())
}

fn is_asm(extension: &[u8]) -> bool
    ensures { result ≡ is_asm extension.now }
{
    extension == b"s".as_slice() || (extension == b"S".as_slice() || extension == b"asm".as_slice())
}

fn use_of_extension(extension: &[u8]) -> SourceUse
    ensures { result ≡ use_of_extension extension.now }
{
    if extension == b"c".as_slice() {
        SourceUse::Built(ToolName::Cc)
    } else if is_cxx(extension) {
        SourceUse::Built(ToolName::Cxx)
    } else if is_asm(extension) {
        SourceUse::Built(ToolName::Asm)
    } else if extension == b"o".as_slice() {
        SourceUse::Object
    } else {
        SourceUse::NotBuilt
    }
}

/// What becomes of a source, by the extension of its file.
pub fn use_of(alloc: Global, source: &Path) -> Result<SourceUse, AllocError>
    ensures { IfOk result (λ u. u ≡ use_of source.now) }
{
    let extension = part(alloc, source.as_bytes(), PathPart::Extension)?;
    Ok(use_of_extension(extension.as_bytes()))
}

/// Paths as they are seen from the build directory.
pub fn all_seen(alloc: Global, build: &Path, paths: &[Path]) -> Result<Texts, AllocError>
    ensures { IfOk result (λ texts. texts ≡ map (seen_from build.now) paths.now) }
{
    let mut texts: Vec<Text> = Vec::with_capacity(alloc, paths.len())?;
    for path in paths {
        texts.push(path.seen_from(alloc, build)?)?;
    }
    Ok(Texts::from_vec(texts))
}
