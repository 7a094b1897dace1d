// What is read of the texts of arguments, and the refusals of their faults.

ghost use Rattle.std.specs.Prelude.{◌≡◌, ◌++◌, [], ◌∷◌, Some, IfOk, OnOk, map};
ghost use Rattle.gn_calls_text.specs.Views.{bytes_in};
ghost use Rattle.gn_calls_path.specs.Found.{path_code, each};
ghost use Rattle.gn_calls_path.specs.Directories.{path_at};
ghost use Rattle.gn_calls_path.specs.Labels.{label_at, pattern_at};
ghost use Rattle.gn_calls_path.specs.Templates.{template_at};
ghost use Rattle.gn_calls_path.specs.Views.{IsFound, label_refusal, pattern_refusal};

use crate::place::Where;
use gn_calls_text::{CallError, bytes_of};
use gn_faults::Code;
use gn_labels::{Label, LabelError, Pattern, PatternError};
use gn_paths::{Path, PathError, PathFault, path_meant};
use gn_substs::{Position, Subst, SubstError};
use gn_values::Value;
use std::alloc::{AllocError, Global};

/// A fault at an argument.
pub(crate) fn refused(code: Code, argument: u32) -> CallError
    ensures { result ≡ CallError.Refused code (Some argument) }
{
    CallError::Refused {
        code,
        argument: Some(argument),
    }
}

/// The code of what keeps a text from being a path.
pub(crate) fn path_code(fault: PathFault) -> Code
    ensures { result ≡ path_code fault }
{
    match fault {
        PathFault::AboveRoot => Code::AboveRoot,
        PathFault::BadPath => Code::BadPath,
    }
}

/// Puts an item at the end of a list.
pub(crate) fn put<T: Drop>(items: &mut Vec<T>, item: T) -> Result<(), AllocError>
    ensures { OnOk result (items.new.items ≡ items.old.items ++ item ∷ []) }
{
    items.push(item)?;
    Ok(())
}

/// The path that a text of an argument means at a directory.
pub(crate) fn read_path(
    alloc: Global,
    directory: &Path,
    text: &[u8],
    argument: u32,
) -> Result<Path, CallError>
    ensures { IsFound (λ p. p) argument result (path_at directory.now text.now) }
{
    match path_meant(alloc, directory, text)? {
        Ok(path) => Ok(path),
        Err(fault) => Err(refused(path_code(fault), argument)),
    }
}

/// The paths that the strings of the first argument mean at a directory.
pub(crate) fn read_paths(
    alloc: Global,
    directory: &Path,
    texts: &[Value],
) -> Result<Vec<Path>, CallError>
    ensures { IsFound (λ ps. ps.items) 0 result (each (path_at directory.now) (map bytes_in texts.now)) }
{
    let mut paths = Vec::with_capacity(alloc, texts.len())?;
    for text in texts {
        put(&mut paths, read_path(alloc, directory, bytes_of(text), 0)?)?;
    }
    Ok(paths)
}

/// The refusal of the first argument where that is no label.
fn label_refused(error: LabelError) -> CallError
    ensures { result ≡ label_refusal error }
{
    match error {
        LabelError::BadLabel => refused(Code::BadLabel, 0),
        LabelError::Path(PathError::AboveRoot) => refused(Code::AboveRoot, 0),
        LabelError::Path(PathError::BadPath) => refused(Code::BadPath, 0),
        LabelError::Path(PathError::Memory) | LabelError::Memory => CallError::Memory,
    }
}

/// The label that the text of the first argument means.
pub fn read_label(alloc: Global, at: &Where, text: &[u8]) -> Result<Label, CallError>
    ensures { IsFound (λ l. l) 0 result (label_at at.now text.now) }
{
    match Label::read(alloc, text, &at.directory, &at.toolchain) {
        Ok(label) => Ok(label),
        Err(error) => Err(label_refused(error)),
    }
}

/// The refusal of the second argument where that is no pattern.
fn pattern_refused(error: PatternError) -> CallError
    ensures { result ≡ pattern_refusal error }
{
    match error {
        PatternError::BadPattern => refused(Code::BadPattern, 1),
        PatternError::Path(PathError::AboveRoot) => refused(Code::AboveRoot, 1),
        PatternError::Path(PathError::BadPath) => refused(Code::BadPath, 1),
        PatternError::Path(PathError::Memory) | PatternError::Memory => CallError::Memory,
    }
}

/// The pattern that a text of the second argument means.

fn read_pattern(alloc: Global, at: &Where, text: &[u8]) -> Result<Pattern, CallError>
    ensures { IsFound (λ p. p) 1 result (pattern_at at.now text.now) }
{
    match Pattern::read(alloc, text, &at.directory) {
        Ok(pattern) => Ok(pattern),
        Err(error) => Err(pattern_refused(error)),
    }
}

/// The patterns that the strings of the second argument mean.
pub(crate) fn read_patterns(
    alloc: Global,
    at: &Where,
    texts: &[Value],
) -> Result<Vec<Pattern>, CallError>
    ensures { IsFound (λ ps. ps.items) 1 result (each (pattern_at at.now) (map bytes_in texts.now)) }
{
    let mut patterns = Vec::with_capacity(alloc, texts.len())?;
    for text in texts {
        put(&mut patterns, read_pattern(alloc, at, bytes_of(text))?)?;
    }
    Ok(patterns)
}

/// The template that a text of the second argument is.

fn read_template(alloc: Global, text: &[u8]) -> Result<Subst, CallError>
    ensures { IsFound (λ s. s) 1 result (template_at text.now) }
{
    match Subst::read(alloc, text, Position::FileTemplate) {
        Ok(template) => Ok(template),
        Err(SubstError::UnknownSubstitution(_)) => Err(refused(Code::UnknownSubstitution, 1)),
        Err(SubstError::Memory) => Err(CallError::Memory),
    }
}

/// The templates that the strings of the second argument are.
pub(crate) fn read_templates(alloc: Global, texts: &[Value]) -> Result<Vec<Subst>, CallError>
    ensures { IsFound (λ ss. ss.items) 1 result (each template_at (map bytes_in texts.now)) }
{
    let mut templates = Vec::with_capacity(alloc, texts.len())?;
    for text in texts {
        put(&mut templates, read_template(alloc, bytes_of(text))?)?;
    }
    Ok(templates)
}
