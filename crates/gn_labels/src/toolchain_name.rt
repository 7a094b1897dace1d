// A toolchain's text as a name in a directory.

ghost use Rattle.std.specs.Prelude.{◌≡◌, ◌==◌, ◌≤◌, not, length, Some, IfOk};
ghost use Rattle.std.specs.List.{suffix_len, list_any, before_last, after_last};
ghost use Rattle.gn_paths.specs.Components.{two_slashes};
ghost use Rattle.gn_paths.specs.Resolve.{path_meant};
ghost use Rattle.gn_labels.specs.Reading.{is_colon, named};
ghost use Rattle.gn_labels.specs.Toolchains.{named_at, toolchain_named};

use crate::named::Named;
use gn_paths::{Path, Text, path_meant};
use std::alloc::{AllocError, Global};

impl Named {
    /// The directory and the name that a toolchain's text spells, which is cut at its last colon: a directory may hold
    /// one, a name doesn't. None comes where the text has no colon, as the empty text, or no path stands before it.
    #[tactic(auto, unfolding(crate::specs::Toolchains::toolchain_named))]
    pub fn of_toolchain(alloc: Global, text: &[u8]) -> Result<Option<Named>, AllocError>
        ensures { IfOk result (λ part. part ≡ toolchain_named text.now) }
    {
        if !has_colon(text) {
            return Ok(None);
        }
        named_at(alloc, before_colon(text), behind_colon(text))
    }
}

fn has_colon(text: &[u8]) -> bool
    ensures { result ≡ list_any is_colon text.now }
{
    text.contains(&b':')
}

fn named_at(alloc: Global, dir: &[u8], name: &[u8]) -> Result<Option<Named>, AllocError>
    ensures { IfOk result (λ part. part ≡ named_at name.now (path_meant two_slashes dir.now)) }
{
    let root = Path::root(alloc)?;
    match path_meant(alloc, &root, dir)? {
        Ok(dir) => some_named(alloc, dir, name),
        Err(_) => Ok(None),
    }
}

fn some_named(alloc: Global, dir: Path, name: &[u8]) -> Result<Option<Named>, AllocError>
    ensures { IfOk result (λ part. part ≡ Some (named dir name.now)) }
{
    let name = Text::from_bytes(alloc, name)?;
    Ok(Some(Named { dir, name }))
}

// How many bytes stand after the last colon.
fn len_after_colon(text: &[u8]) -> usize
    ensures value { result ≡ suffix_len (λ b. not (is_colon b)) text.now }
    ensures within { result ≤ length text.now }
{
    let mut n = text.len();
    while n > 0 && text[n - 1] != b':' {
        n -= 1;
    }
    text.len() - n
}

fn before_colon(text: &[u8]) -> &[u8]
    ensures { result.now ≡ before_last is_colon text.now }
{
    &text[..(text.len() - len_after_colon(text)).saturating_sub(1)]
}

fn behind_colon(text: &[u8]) -> &[u8]
    ensures { result.now ≡ after_last is_colon text.now }
{
    &text[text.len() - len_after_colon(text)..]
}
