// What single strings are read as where an item is defined.

ghost use Rattle.std.specs.Prelude.{◌≡◌, Ok, Err, IfOk, IfErr};
ghost use Rattle.std.specs.List.{list_any};
ghost use Rattle.gn_paths.specs.Components.{is_slash};
ghost use Rattle.gn_define.specs.Faults.{IsReadFault, label_error, pattern_error};
ghost use Rattle.gn_define.specs.Reading.{path_code, path_in, label_in, pattern_in, subst_in, text_in};

use crate::fault::ReadError;
use crate::forms::TextForm;
use crate::place::Where;
use gn_faults::Code;
use gn_labels::{Label, LabelError, Pattern, PatternError};
use gn_paths::{Path, PathError, PathFault, Text, path_meant};
use gn_substs::{Position, Subst, SubstError};
use std::alloc::Global;

/// The code of what keeps a text from being a path.
pub(crate) fn path_code(fault: PathFault) -> Code
    ensures { result ≡ path_code fault }
{
    match fault {
        PathFault::AboveRoot => Code::AboveRoot,
        PathFault::BadPath => Code::BadPath,
    }
}

/// The path that a text means.
pub(crate) fn path_in(alloc: Global, place: &Where, text: &[u8]) -> Result<Path, ReadError>
    ensures ok { IfOk result (λ p. path_in place.now text.now ≡ Ok p) }
    ensures wrong { IfErr result (λ e. IsReadFault e (path_in place.now text.now)) }
{
    match path_meant(alloc, &place.directory, text)? {
        Ok(path) => Ok(path),
        Err(fault) => Err(ReadError::Wrong(path_code(fault))),
    }
}

fn label_error(error: LabelError) -> ReadError
    ensures { result ≡ label_error error }
{
    match error {
        LabelError::BadLabel => ReadError::Wrong(Code::BadLabel),
        LabelError::Path(PathError::AboveRoot) => ReadError::Wrong(Code::AboveRoot),
        LabelError::Path(PathError::BadPath) => ReadError::Wrong(Code::BadPath),
        LabelError::Path(PathError::Memory) | LabelError::Memory => ReadError::Memory,
    }
}

/// The label that a text means.
pub(crate) fn label_in(alloc: Global, place: &Where, text: &[u8]) -> Result<Label, ReadError>
    ensures ok { IfOk result (λ l. label_in place.now text.now ≡ Ok l) }
    ensures wrong { IfErr result (λ e. IsReadFault e (label_in place.now text.now)) }
{
    match Label::read(alloc, text, &place.directory, &place.toolchain) {
        Ok(label) => Ok(label),
        Err(error) => Err(label_error(error)),
    }
}

fn pattern_error(error: PatternError) -> ReadError
    ensures { result ≡ pattern_error error }
{
    match error {
        PatternError::BadPattern => ReadError::Wrong(Code::BadPattern),
        PatternError::Path(PathError::AboveRoot) => ReadError::Wrong(Code::AboveRoot),
        PatternError::Path(PathError::BadPath) => ReadError::Wrong(Code::BadPath),
        PatternError::Path(PathError::Memory) | PatternError::Memory => ReadError::Memory,
    }
}

/// The pattern that a text means.
pub(crate) fn pattern_in(alloc: Global, place: &Where, text: &[u8]) -> Result<Pattern, ReadError>
    ensures ok { IfOk result (λ p. pattern_in place.now text.now ≡ Ok p) }
    ensures wrong { IfErr result (λ e. IsReadFault e (pattern_in place.now text.now)) }
{
    match Pattern::read(alloc, text, &place.directory) {
        Ok(pattern) => Ok(pattern),
        Err(error) => Err(pattern_error(error)),
    }
}

/// The substitution text of a position.
pub(crate) fn subst_in(alloc: Global, position: Position, text: &[u8]) -> Result<Subst, ReadError>
    ensures ok { IfOk result (λ s. subst_in position text.now ≡ Ok s) }
    ensures wrong { IfErr result (λ e. IsReadFault e (subst_in position text.now)) }
{
    match Subst::read(alloc, text, position) {
        Ok(subst) => Ok(subst),
        Err(SubstError::UnknownSubstitution(_)) => Err(ReadError::Wrong(Code::UnknownSubstitution)),
        Err(SubstError::Memory) => Err(ReadError::Memory),
    }
}

fn has_slash(text: &[u8]) -> bool
    ensures { result ≡ list_any is_slash text.now }
{
    text.iter().any(|byte| *byte == b'/')
}

// The text itself.
fn copied(alloc: Global, text: &[u8]) -> Result<Text, ReadError>
    ensures ok { IfOk result (λ t. t ≡ text.now) }
    ensures memory { IfErr result (λ e. e ≡ ReadError.Memory) }
{
    Ok(Text::from_bytes(alloc, text)?)
}

fn resolved(alloc: Global, place: &Where, text: &[u8]) -> Result<Text, ReadError>
    ensures ok { IfOk result (λ p. path_in place.now text.now ≡ Ok p) }
    ensures wrong { IfErr result (λ e. IsReadFault e (path_in place.now text.now)) }
{
    let path = path_in(alloc, place, text)?;
    copied(alloc, path.as_bytes())
}

/// A text that is kept as a text.
pub(crate) fn text_in(
    alloc: Global,
    place: &Where,
    form: TextForm,
    text: &[u8],
) -> Result<Text, ReadError>
    ensures ok { IfOk result (λ t. text_in place.now form text.now ≡ Ok t) }
    ensures wrong { IfErr result (λ e. IsReadFault e (text_in place.now form text.now)) }
{
    match form {
        TextForm::Library if has_slash(text) => resolved(alloc, place, text),
        TextForm::DepsFormat if text != b"gcc".as_slice() => {
            Err(ReadError::Wrong(Code::BadArguments))
        }
        _ => copied(alloc, text),
    }
}
