// Lists of texts.

ghost use Rattle.std.specs.Prelude.{◌≡◌, [], ◌∷◌, ◌++◌, IfOk, OnOk, map};

use crate::keeping::beside;
use gn_paths::{Text, Texts};
use gn_writing::Dones;
use std::alloc::{AllocError, Global};

// A list of one text.
pub(crate) fn only(alloc: Global, text: Text) -> Result<Texts, AllocError>
    ensures { IfOk result (λ texts. texts ≡ text ∷ []) }
{
    let mut texts = Texts::new(alloc);
    texts.push(text)?;
    Ok(texts)
}

// Copies of texts.
pub(crate) fn copies(alloc: Global, texts: &[Text]) -> Result<Texts, AllocError>
    ensures { IfOk result (λ list. list ≡ texts.now) }
{
    let mut list = Vec::with_capacity(alloc, texts.len())?;
    for text in texts {
        list.push(text.copy(alloc)?)?;
    }
    Ok(Texts::from_vec(list))
}

// Puts copies of texts behind others.
pub(crate) fn add_copies(alloc: Global, list: &mut Texts, texts: &[Text]) -> Result<(), AllocError>
    ensures { OnOk result (list.new ≡ list.old ++ texts.now) }
{
    for text in texts {
        list.push(text.copy(alloc)?)?;
    }
    Ok(())
}

// Copies of the texts of two lists, one behind the other.
pub(crate) fn both(alloc: Global, first: &Texts, second: &Texts) -> Result<Texts, AllocError>
    ensures { IfOk result (λ list. list ≡ first.now ++ second.now) }
{
    let mut list = first.copy(alloc)?;
    let added = add_copies(alloc, &mut list, second.as_slice());
    let (list, ()) = beside(list, added)?;
    Ok(list)
}

// Copies of texts that are lent.
pub(crate) fn copies_of_lent(alloc: Global, texts: &[&Text]) -> Result<Texts, AllocError>
    ensures { IfOk result (λ list. list ≡ map (λ t. t.now) texts.now) }
{
    let mut list = Vec::with_capacity(alloc, texts.len())?;
    for text in texts {
        list.push(text.copy(alloc)?)?;
    }
    Ok(Texts::from_vec(list))
}

/// The done files of a target's dependencies: those of `public_deps`, then of `deps`, and those of `data_deps`.
pub fn dones(alloc: Global, deps: &[&Text], data_deps: &[&Text]) -> Result<Dones, AllocError>
    ensures { IfOk result (λ d. d ≡ record { deps = map (λ t. t.now) deps.now; data_deps = map (λ t. t.now) data_deps.now }) }
{
    let deps = copies_of_lent(alloc, deps)?;
    let (deps, data_deps) = beside(deps, copies_of_lent(alloc, data_deps))?;
    Ok(Dones { deps, data_deps })
}
