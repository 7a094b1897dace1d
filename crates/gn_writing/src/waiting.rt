// The paths of some lists that stand in none of others.

ghost use Rattle.std.specs.Prelude.{◌≡◌, ◌++◌, [], ◌∷◌, OnOk, IfOk};
ghost use Rattle.std.specs.List.{filter, fold};
ghost use Rattle.gn_text.specs.Names.{with_name};
ghost use Rattle.gn_writing.specs.Rest.{is_missing, joined, rest};

use gn_paths::{Text, Texts};
use gn_text::Names;
use std::alloc::{AllocError, Global};

// Puts texts among names.
fn add_names(names: &mut Names, texts: &Texts) -> Result<(), AllocError>
    ensures { OnOk result (names.new ≡ fold with_name names.old texts.now) }
{
    for text in texts.as_slice() {
        names.intern(text.as_bytes())?;
    }
    Ok(())
}

// The texts of all lists as names.
fn names_of(alloc: Global, lists: &[&Texts]) -> Result<Names, AllocError>
    ensures { IfOk result (λ names. names ≡ fold with_name [] (joined lists.now)) }
{
    let mut names = Names::new(alloc);
    for list in lists {
        add_names(&mut names, list)?;
    }
    Ok(names)
}

/// Whether a path is none of the names.
#[tactic(auto, using(crate::proofs::Named::not_lacking))]
pub fn is_missing(names: &Names, path: &Text) -> bool
    ensures { result ≡ is_missing names.now path.now }
{
    match names.number(path.as_bytes()) {
        Some(_) => false,
        None => true,
    }
}

// Puts a path behind the others, where it is none of the names.
fn push_missing(
    alloc: Global,
    kept: &mut Texts,
    names: &Names,
    path: &Text,
) -> Result<(), AllocError>
    ensures { OnOk result (kept.new ≡ kept.old ++ filter (is_missing names.now) (path.now ∷ [])) }
{
    if is_missing(names, path) {
        return kept.push(path.copy(alloc)?);
    }
    Ok(())
}

// Puts the paths of a list that are none of the names behind the others.
fn add_missing(
    alloc: Global,
    kept: &mut Texts,
    names: &Names,
    paths: &Texts,
) -> Result<(), AllocError>
    ensures { OnOk result (kept.new ≡ kept.old ++ filter (is_missing names.now) paths.now) }
{
    for path in paths.as_slice() {
        push_missing(alloc, kept, names, path)?;
    }
    Ok(())
}

// The paths of all lists that are none of the names.
fn missing(alloc: Global, names: &Names, lists: &[&Texts]) -> Result<Texts, AllocError>
    ensures { IfOk result (λ kept. kept ≡ filter (is_missing names.now) (joined lists.now)) }
{
    let mut kept = Texts::new(alloc);
    for list in lists {
        add_missing(alloc, &mut kept, names, list)?;
    }
    Ok(kept)
}

/// The paths of some lists, in order, that stand in none of others: the done files that a line of a linked target waits for
/// besides those that are in it already.
#[tactic(auto, using(crate::proofs::Named::rest_of_names))]
pub fn rest(alloc: Global, lists: &[&Texts], others: &[&Texts]) -> Result<Texts, AllocError>
    ensures { IfOk result (λ kept. kept ≡ rest lists.now others.now) }
{
    let names = names_of(alloc, others)?;
    missing(alloc, &names, lists)
}
