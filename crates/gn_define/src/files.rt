// Texts that name files: what they stand for, and where that may be.

ghost use Rattle.std.specs.Prelude.{◌≡◌, Ok, IfOk, IfErr};
ghost use Rattle.gn_define.specs.Faults.{IsReadFault};
ghost use Rattle.gn_define.specs.Files.{file_position, has_names, path_fault, file_fault, text_alone, text_of_source, source_fault, first_fault, subst_fault, file_in, subst_as};

use crate::fault::ReadError;
use crate::forms::{FileRole, SubstForm};
use crate::place::Where;
use crate::reading::{path_code, subst_in};
use gn_faults::Code;
use gn_paths::{Path, Text, Texts, path_meant};
use gn_rows::ItemKind;
use gn_substs::{Around, Given, Position, Subst};
use std::alloc::{AllocError, Global};

/// The position of a text that names a file of an item of this kind.
pub(crate) fn file_position(kind: ItemKind, role: FileRole) -> Position
    ensures { result ≡ file_position kind role }
{
    match (kind, role) {
        (ItemKind::ActionForeach, FileRole::Output) => Position::ForeachOutputs,
        (ItemKind::ActionForeach, FileRole::Depfile) => Position::ForeachDepfile,
        (ItemKind::Copy, FileRole::Output) => Position::CopyOutputs,
        _ => Position::NoNames,
    }
}

/// Whether a position has substitutions.
pub(crate) fn has_names(position: Position) -> bool
    ensures { result ≡ has_names position }
{
    !matches!(position, Position::NoNames)
}

// The fault of a text as the path of a file, if it has one.
#[tactic(auto, unfolding(crate::specs::Files::file_fault))]
fn file_fault(
    alloc: Global,
    place: &Where,
    role: FileRole,
    text: &[u8],
) -> Result<Option<Code>, AllocError>
    ensures { IfOk result (λ f. f ≡ file_fault place.now role text.now) }
{
    match path_meant(alloc, &place.directory, text)? {
        Ok(path) => Ok(place_fault(place, role, &path)),
        Err(fault) => Ok(Some(path_code(fault))),
    }
}

// The fault of the place of a file, if it has one.
fn place_fault(place: &Where, role: FileRole, path: &Path) -> Option<Code>
    ensures { result ≡ path_fault role place.now.build (Ok path.now) }
{
    match role {
        FileRole::Output if !path.is_below(&place.build) => Some(Code::BadPath),
        _ => None,
    }
}

/// A text with the substitutions of a source.
pub(crate) fn text_of_source(
    alloc: Global,
    place: &Where,
    position: Position,
    source: &Path,
    subst: &Subst,
) -> Result<Text, AllocError>
    ensures { IfOk result (λ t. t ≡ text_of_source place.now position subst.now source.now) }
{
    let around = Around {
        target: &place.directory,
        build: &place.build,
        out: &place.out,
    };
    let given = Given::of_source(alloc, position, source, &around)?;
    subst.expand(alloc, &given)
}

/// A text of a position without substitutions.
pub(crate) fn text_alone(alloc: Global, subst: &Subst) -> Result<Text, AllocError>
    ensures { IfOk result (λ t. t ≡ text_alone subst.now) }
{
    let given = Given::new(Position::NoNames, Texts::new(alloc));
    subst.expand(alloc, &given)
}

#[tactic(auto, unfolding(crate::specs::Files::source_fault))]
fn fault_for_source(
    alloc: Global,
    place: &Where,
    role: FileRole,
    source: &Path,
    subst: &Subst,
) -> Result<Option<Code>, AllocError>
    ensures { IfOk result (λ f. f ≡ source_fault place.now role subst.now source.now) }
{
    let text = text_of_source(alloc, place, file_position(place.kind, role), source, subst)?;
    file_fault(alloc, place, role, text.as_bytes())
}

// The first fault of a text that stands for a file of each source.
fn fault_for_sources(
    alloc: Global,
    place: &Where,
    role: FileRole,
    sources: &[Path],
    subst: &Subst,
) -> Result<Option<Code>, AllocError>
    ensures { IfOk result (λ f. f ≡ first_fault (source_fault place.now role subst.now) sources.now) }
{
    for source in sources {
        if let Some(code) = fault_for_source(alloc, place, role, source, subst)? {
            return Ok(Some(code));
        }
    }
    Ok(None)
}

fn fault_alone(
    alloc: Global,
    place: &Where,
    role: FileRole,
    subst: &Subst,
) -> Result<Option<Code>, AllocError>
    ensures { IfOk result (λ f. f ≡ file_fault place.now role (text_alone subst.now)) }
{
    let text = text_alone(alloc, subst)?;
    file_fault(alloc, place, role, text.as_bytes())
}

// The first fault of the files for which a text stands.
fn subst_fault(
    alloc: Global,
    place: &Where,
    role: FileRole,
    sources: &[Path],
    subst: &Subst,
) -> Result<Option<Code>, AllocError>
    ensures { IfOk result (λ f. f ≡ subst_fault place.now role sources.now subst.now) }
{
    if has_names(file_position(place.kind, role)) {
        fault_for_sources(alloc, place, role, sources, subst)
    } else {
        fault_alone(alloc, place, role, subst)
    }
}

// A text that names a file, for these sources.
fn file_in(
    alloc: Global,
    place: &Where,
    role: FileRole,
    sources: &[Path],
    text: &[u8],
) -> Result<Subst, ReadError>
    ensures ok { IfOk result (λ s. file_in place.now role sources.now text.now ≡ Ok s) }
    ensures wrong { IfErr result (λ e. IsReadFault e (file_in place.now role sources.now text.now)) }
{
    let subst = subst_in(alloc, file_position(place.kind, role), text)?;
    match subst_fault(alloc, place, role, sources, &subst)? {
        None => Ok(subst),
        Some(code) => Err(ReadError::Wrong(code)),
    }
}

/// A substitution text, for these sources.
pub(crate) fn subst_as(
    alloc: Global,
    place: &Where,
    form: SubstForm,
    sources: &[Path],
    text: &[u8],
) -> Result<Subst, ReadError>
    ensures ok { IfOk result (λ s. subst_as place.now form sources.now text.now ≡ Ok s) }
    ensures wrong { IfErr result (λ e. IsReadFault e (subst_as place.now form sources.now text.now)) }
{
    match form {
        SubstForm::At(position) => subst_in(alloc, position, text),
        SubstForm::File(role) => file_in(alloc, place, role, sources, text),
    }
}
