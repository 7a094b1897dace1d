// The files that an item makes by its own texts.

ghost use Rattle.std.specs.Prelude.{◌≡◌, ◌++◌, [], IfOk, OnOk};
ghost use Rattle.std.specs.List.{flat_map};
ghost use Rattle.gn_define.specs.Outputs.{has_outputs, output_path, paths_behind, alone_path, source_path, outputs_for, outputs_of};

use crate::distinct::DistinctPaths;
use crate::fields::Fields;
use crate::files::{file_position, has_names, text_alone, text_of_source};
use crate::forms::FileRole;
use crate::place::Where;
use gn_paths::{Path, Text, path_meant};
use gn_rows::{ItemKind, Variable};
use gn_substs::Subst;
use std::alloc::{AllocError, Global};

/// Whether items of the kind make what their own texts say. It takes no memory.
pub fn has_outputs(kind: ItemKind) -> bool
    ensures { result ≡ has_outputs kind }
{
    matches!(
        kind,
        ItemKind::Action | ItemKind::ActionForeach | ItemKind::Copy
    )
}

// The path that a text means.
fn output_path(alloc: Global, place: &Where, text: Text) -> Result<Text, AllocError>
    ensures { IfOk result (λ p. p ≡ output_path place.now text) }
{
    match path_meant(alloc, &place.directory, text.as_bytes())? {
        Ok(path) => path.as_text().copy(alloc),
        Err(_) => Ok(text),
    }
}

fn alone_path(alloc: Global, place: &Where, subst: &Subst) -> Result<Text, AllocError>
    ensures { IfOk result (λ p. p ≡ alone_path place.now subst.now) }
{
    output_path(alloc, place, text_alone(alloc, subst)?)
}

fn source_path(
    alloc: Global,
    place: &Where,
    source: &Path,
    subst: &Subst,
) -> Result<Text, AllocError>
    ensures { IfOk result (λ p. p ≡ source_path place.now source.now subst.now) }
{
    let position = file_position(place.kind, FileRole::Output);
    output_path(
        alloc,
        place,
        text_of_source(alloc, place, position, source, subst)?,
    )
}

// What is made of the texts for one source.
fn outputs_for(
    alloc: Global,
    place: &Where,
    substs: &[Subst],
    source: &Path,
) -> Result<Vec<Text>, AllocError>
    ensures { IfOk result (λ ps. ps.items ≡ outputs_for place.now substs.now source.now) }
{
    let mut paths = DistinctPaths::new(alloc);
    for subst in substs {
        paths.put(source_path(alloc, place, source, subst)?)?;
    }
    Ok(paths.into_vec())
}

// What is made of the texts for each source.
fn outputs_of_sources(
    alloc: Global,
    place: &Where,
    substs: &[Subst],
    sources: &[Path],
) -> Result<Vec<Text>, AllocError>
    ensures { IfOk result (λ ps. ps.items ≡ flat_map (outputs_for place.now substs.now) sources.now) }
{
    let mut paths = Vec::new(alloc);
    for source in sources {
        append_outputs(alloc, place, substs, source, &mut paths)?;
    }
    Ok(paths)
}

fn append_outputs(
    alloc: Global,
    place: &Where,
    substs: &[Subst],
    source: &Path,
    paths: &mut Vec<Text>,
) -> Result<(), AllocError>
    ensures { OnOk result (paths.new.items ≡ paths.old.items ++ outputs_for place.now substs.now source.now) }
{
    let mut more = outputs_for(alloc, place, substs, source)?;
    paths.append(&mut more)
}

// What is made of the texts together.
fn outputs_alone(alloc: Global, place: &Where, substs: &[Subst]) -> Result<Vec<Text>, AllocError>
    ensures { IfOk result (λ ps. ps.items ≡ paths_behind (alone_path place.now) [] substs.now) }
{
    let mut paths = DistinctPaths::new(alloc);
    for subst in substs {
        paths.put(alone_path(alloc, place, subst)?)?;
    }
    Ok(paths.into_vec())
}

/// The paths of an item's outputs, where it is defined: for each source those of its texts in order, where the kind takes its
/// sources one by one. A path stands once among what is made at once, at its first place.
#[tactic(auto, unfolding(crate::specs::Outputs::outputs_of))]
pub fn outputs_of(alloc: Global, place: &Where, fields: &Fields) -> Result<Vec<Text>, AllocError>
    ensures { IfOk result (λ ps. ps.items ≡ outputs_of place.now fields.now) }
{
    let substs = fields.substs(Variable::Outputs);
    if has_names(file_position(place.kind, FileRole::Output)) {
        outputs_of_sources(alloc, place, substs, fields.paths(Variable::Sources))
    } else {
        outputs_alone(alloc, place, substs)
    }
}
