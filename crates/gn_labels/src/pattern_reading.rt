// The pattern that a text means.

ghost use Rattle.std.specs.Prelude.{◌≡◌, ◌⊎◌, Ok, Err, IfOk, IfErr};
ghost use Rattle.std.specs.List.{list_any};
ghost use Rattle.gn_labels.specs.Names.{is_mark};
ghost use Rattle.gn_labels.specs.Reading.{named_read};
ghost use Rattle.gn_labels.specs.Patterns.{is_star, directory_found, directory_read, in_directory, from_directory, exact, wild_read, extent_read, pattern_fault, pattern_of, pattern_read, pattern_error, pattern_answered};

use crate::bytes::{len_before, starts_in_source};
use crate::error::{LabelFault, PatternError, PatternFault};
use crate::label_reading::{directory, read_named};
use crate::name::is_mark;
use crate::named::Named;
use crate::pattern::{Extent, Pattern};
use crate::toolchain::{both, toolchain_in};
use gn_paths::{Path, PathError, PathFault, Text};
use std::alloc::{AllocError, Global};

fn has_mark(text: &[u8]) -> bool
    ensures { result ≡ list_any is_mark text.now }
{
    text.iter().any(|byte| is_mark(*byte))
}

fn has_star(text: &[u8]) -> bool
    ensures { result ≡ list_any is_star text.now }
{
    text.contains(&b'*')
}

fn directory_found(found: Result<Path, PathFault>) -> Result<Path, LabelFault>
    ensures { result ≡ directory_found found }
{
    match found {
        Ok(dir) => Ok(dir),
        Err(fault) => Err(LabelFault::Path(fault)),
    }
}

// The directory of a pattern.
fn read_directory(
    alloc: Global,
    current: &Path,
    text: &[u8],
) -> Result<Result<Path, LabelFault>, AllocError>
    ensures { IfOk result (λ found. found ≡ directory_read current.now text.now) }
{
    if has_mark(text) || !starts_in_source(current, text) {
        return Ok(Err(LabelFault::BadLabel));
    }
    let found = directory(alloc, current, text)?;
    Ok(directory_found(found))
}

fn in_directory(found: Result<Path, LabelFault>) -> Result<Extent, LabelFault>
    ensures { result ≡ in_directory found }
{
    match found {
        Ok(dir) => Ok(Extent::Directory(dir)),
        Err(fault) => Err(fault),
    }
}

fn from_directory(found: Result<Path, LabelFault>) -> Result<Extent, LabelFault>
    ensures { result ≡ from_directory found }
{
    match found {
        Ok(dir) => Ok(Extent::Below(dir)),
        Err(fault) => Err(fault),
    }
}

fn exact(found: Result<Named, LabelFault>) -> Result<Extent, LabelFault>
    ensures { result ≡ exact found }
{
    match found {
        Ok(part) => Ok(Extent::Exact(part)),
        Err(fault) => Err(fault),
    }
}

// What stands before the toolchain, in a text with a `*`.
fn read_wild(
    alloc: Global,
    current: &Path,
    text: &[u8],
) -> Result<Result<Extent, LabelFault>, AllocError>
    ensures { IfOk result (λ found. found ≡ wild_read current.now text.now) }
{
    if text == b"*".as_slice() {
        return Ok(Ok(Extent::All));
    }
    if text.ends_with(b":*") {
        let found = read_directory(alloc, current, &text[..text.len() - 2])?;
        return Ok(in_directory(found));
    }
    if text.ends_with(b"/*") {
        let found = read_directory(alloc, current, &text[..text.len() - 1])?;
        return Ok(from_directory(found));
    }
    Ok(Err(LabelFault::BadLabel))
}

fn read_exact(
    alloc: Global,
    current: &Path,
    text: &[u8],
) -> Result<Result<Extent, LabelFault>, AllocError>
    ensures { IfOk result (λ found. found ≡ exact (named_read current.now text.now)) }
{
    let found = read_named(alloc, current, text)?;
    Ok(exact(found))
}

// What stands before the toolchain, in a text that holds a `*` or doesn't.
#[tactic(auto, unfolding(crate::specs::Patterns::extent_read))]
fn read_extent(
    alloc: Global,
    current: &Path,
    wild: bool,
    text: &[u8],
) -> Result<Result<Extent, LabelFault>, AllocError>
    ensures { IfOk result (λ found. found ≡ extent_read current.now wild text.now) }
{
    if wild {
        read_wild(alloc, current, text)
    } else {
        read_exact(alloc, current, text)
    }
}

fn pattern_fault(fault: LabelFault) -> PatternFault
    ensures { result ≡ pattern_fault fault }
{
    match fault {
        LabelFault::BadLabel => PatternFault::BadPattern,
        LabelFault::Path(fault) => PatternFault::Path(fault),
    }
}

fn pattern_of(
    alloc: Global,
    text: &[u8],
    parts: Result<(Extent, Option<Text>), LabelFault>,
) -> Result<Result<Pattern, PatternFault>, AllocError>
    ensures { IfOk result (λ found. found ≡ pattern_of text.now parts) }
{
    match parts {
        Ok((extent, toolchain)) => {
            let text = Text::from_bytes(alloc, text)?;
            Ok(Ok(Pattern::new(extent, toolchain, text)))
        }
        Err(fault) => Ok(Err(pattern_fault(fault))),
    }
}

/// What a text means as a pattern at a current directory: the pattern, or what keeps it from being one, as `Pattern::read` says.
/// The error is want of memory alone.
#[tactic(auto, unfolding(crate::specs::Patterns::pattern_read))]
pub fn pattern_meant(
    alloc: Global,
    text: &[u8],
    current: &Path,
) -> Result<Result<Pattern, PatternFault>, AllocError>
    ensures { IfOk result (λ found. found ≡ pattern_read current.now text.now) }
{
    let n = len_before(text, b'(');
    let extent = read_extent(alloc, current, has_star(text), &text[..n])?;
    let toolchain = toolchain_in(alloc, current, text)?;
    pattern_of(alloc, text, both(extent, toolchain))
}

fn pattern_error(fault: PatternFault) -> PatternError
    ensures { result ≡ pattern_error fault }
{
    match fault {
        PatternFault::BadPattern => PatternError::BadPattern,
        PatternFault::Path(PathFault::AboveRoot) => PatternError::Path(PathError::AboveRoot),
        PatternFault::Path(PathFault::BadPath) => PatternError::Path(PathError::BadPath),
    }
}

impl Pattern {
    /// The pattern that a text means at a current directory. A text without `*` is read as a label and
    /// is exact. `//d:*` is all of a directory, `//d/*` a directory and all below, `//*` the root and all
    /// below, `*` is all; `:*`, `./*`, `d:*` and `d/*` start at the current directory. Each may end in a
    /// toolchain in parentheses. `BadPattern` comes exactly where a form or a name is wrong, also in the
    /// toolchain, and else `Path` where a directory is no path. A text with a `*` in its toolchain alone
    /// has none of these forms.
    #[tactic(auto, using(crate::proofs::ReadingLemmas::pattern_ok, crate::proofs::ReadingLemmas::pattern_err))]
    pub fn read(alloc: Global, text: &[u8], current: &Path) -> Result<Pattern, PatternError>
        ensures ok { IfOk result (λ p. pattern_read current.now text.now ≡ Ok p) }
        ensures err { IfErr result (λ e. (e ≡ PatternError.Memory) ⊎ (pattern_answered (pattern_read current.now text.now) ≡ Err e)) }
    {
        match pattern_meant(alloc, text, current) {
            Ok(Ok(pattern)) => Ok(pattern),
            Ok(Err(fault)) => Err(pattern_error(fault)),
            Err(_) => Err(PatternError::Memory),
        }
    }
}
