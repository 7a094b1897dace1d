// Lists of a compiled target.

ghost use Rattle.std.specs.Prelude.{◌≡◌, ◌++◌, ◌∷◌, [], map, OnOk, IfOk};
ghost use Rattle.std.specs.List.{fold};
ghost use Rattle.gn_text.specs.Names.{with_name};
ghost use Rattle.gn_writing.specs.Rest.{joined};

use crate::waiting::is_missing;
use gn_paths::{Text, Texts};
use gn_text::Names;
use std::alloc::{AllocError, Global};

// Puts a text behind the others, unless it is one of them. `seen` has them as names.
fn push_once(
    alloc: Global,
    kept: &mut Texts,
    seen: &mut Names,
    text: &Text,
) -> Result<(), AllocError>
    requires { kept.old ≡ seen.old }
    ensures names { OnOk result (seen.new ≡ with_name seen.old text.now) }
    ensures kept { OnOk result (kept.new ≡ seen.new) }
{
    if is_missing(seen, text) {
        seen.intern(text.as_bytes())?;
        return kept.push(text.copy(alloc)?);
    }
    Ok(())
}

// Puts each text of a list behind the others, unless it is one of them.
fn add_once(
    alloc: Global,
    kept: &mut Texts,
    seen: &mut Names,
    texts: &Texts,
) -> Result<(), AllocError>
    requires { kept.old ≡ seen.old }
    ensures names { OnOk result (seen.new ≡ fold with_name seen.old texts.now) }
    ensures kept { OnOk result (kept.new ≡ seen.new) }
{
    for text in texts.as_slice() {
        push_once(alloc, kept, seen, text)?;
    }
    Ok(())
}

/// The texts of some lists, each once, at its first place, as directories of headers and libraries stand.
pub fn each_once(alloc: Global, lists: &[&Texts]) -> Result<Texts, AllocError>
    ensures { IfOk result (λ kept. kept ≡ fold with_name [] (joined lists.now)) }
{
    let mut seen = Names::new(alloc);
    let mut kept = Texts::new(alloc);
    for list in lists {
        add_once(alloc, &mut kept, &mut seen, list)?;
    }
    Ok(kept)
}

// Puts a text behind the others, behind a switch.
fn push_behind(
    alloc: Global,
    texts: &mut Texts,
    switch: &[u8],
    text: &Text,
) -> Result<(), AllocError>
    ensures { OnOk result (texts.new ≡ texts.old ++ (switch.now ++ text.now) ∷ []) }
{
    let mut word = Text::from_bytes(alloc, switch)?;
    word.append(text.as_bytes())?;
    texts.push(word)
}

/// Each text behind a switch of a tool, as the directories of libraries stand.
pub fn behind_switch(alloc: Global, switch: &[u8], texts: &Texts) -> Result<Texts, AllocError>
    ensures { IfOk result (λ words. words ≡ map (λ t. switch.now ++ t) texts.now) }
{
    let mut words = Texts::new(alloc);
    for text in texts.as_slice() {
        push_behind(alloc, &mut words, switch, text)?;
    }
    Ok(words)
}
