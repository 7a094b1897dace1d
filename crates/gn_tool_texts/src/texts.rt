// Why a text of a tool is no path, where it is none.

ghost use Rattle.std.specs.Prelude.{◌≡◌, IfOk};
ghost use Rattle.std.specs.List.{flat_map};
ghost use Rattle.gn_writing.specs.Outputs.{values_of};
ghost use Rattle.gn_records.specs.Expanding.{given_beside, given_by};
ghost use Rattle.gn_tool_texts.specs.Least.{least};
ghost use Rattle.gn_tool_texts.specs.Texts.{faults_of_text, faults_where_used, faults_at};

use crate::least::lesser;
use gn_paths::{PathFault, path_meant};
use gn_records::{Expansion, expanded_by};
use gn_substs::{Subst, Substitution};
use gn_writing::uses;
use std::alloc::{AllocError, Global};

// The fault of a text, expanded by what is given, at the build directory.
#[tactic(auto, using(crate::proofs::LeastLemmas::least_nothing, crate::proofs::LeastLemmas::least_one))]
pub(crate) fn fault_of_text(
    alloc: Global,
    by: &Expansion<'_>,
    text: &Subst,
) -> Result<Option<PathFault>, AllocError>
    ensures { IfOk result (λ fault. fault ≡ least (faults_of_text by.now.names.now.build.now (given_by by.now) text.now)) }
{
    let expanded = expanded_by(alloc, by, text)?;
    let meant = path_meant(alloc, by.names.build, expanded.as_bytes());
    drop(expanded);
    match meant? {
        Ok(_) => Ok(None),
        Err(fault) => Ok(Some(fault)),
    }
}

// The same of a text in which the directory of the output may stand, which isn't looked at where that directory is no path.
#[tactic(auto, using(crate::proofs::LeastLemmas::least_nothing))]
fn fault_where_used(
    alloc: Global,
    by: &Expansion<'_>,
    text: &Subst,
) -> Result<Option<PathFault>, AllocError>
    ensures { IfOk result (λ fault. fault ≡ least (faults_where_used (values_of by.now.names.now) (given_by by.now) text.now)) }
{
    if by.names.output_dir.is_none() && uses(text, Substitution::OutputDir) {
        return Ok(None);
    }
    fault_of_text(alloc, by, text)
}

// The least fault of texts.
#[tactic(auto, using(crate::proofs::LeastLemmas::least_nothing))]
fn fault_among(
    alloc: Global,
    by: &Expansion<'_>,
    texts: &[Subst],
) -> Result<Option<PathFault>, AllocError>
    ensures { IfOk result (λ fault. fault ≡ least (flat_map (faults_where_used (values_of by.now.names.now) (given_by by.now)) texts.now)) }
{
    let mut least = None;
    for text in texts {
        least = lesser(least, fault_where_used(alloc, by, text)?);
    }
    Ok(least)
}

// The least fault of texts at a position of a tool.
#[tactic(auto, unfolding(crate::specs::Texts::faults_at))]
pub(crate) fn fault_at(
    alloc: Global,
    by: &Expansion<'_>,
    texts: &[Subst],
) -> Result<Option<PathFault>, AllocError>
    ensures { IfOk result (λ fault. fault ≡ least (faults_at by.now.position (values_of by.now.names.now) (given_beside by.now.source) texts.now)) }
{
    fault_among(alloc, by, texts)
}
