// Outputs that are made twice.

ghost use Rattle.std.specs.Prelude.{◌≡◌, ◌∷◌, ◌++◌, [], None, IfOk, OnOk, option_map, if◌then◌else◌};
ghost use Rattle.gn_items.specs.Effects.{item_at};
ghost use Rattle.gn_faults.specs.declared.code.Code.TheVariants.{SameOutput};
ghost use Rattle.gn_records.specs.Around.{around};
ghost use Rattle.gn_toolchains.specs.Frames.{has_text, with_text};
ghost use Rattle.gn_build_faults.specs.Told.{fault_with as meant};
ghost use Rattle.gn_build_faults.specs.Outputs.{lent_texts, made_around, with_each, made_twice, shown, lesser_shown, least_shown, twice_told, output_fault};

use crate::told::fault_with;
use gn_faults::{Code, Fault};
use gn_items::Item;
use gn_labelled::ItemIndex;
use gn_labels::Label;
use gn_paths::{Path, Text, Texts, path_meant};
use gn_records::{Context, made};
use indexmap::IndexSet;
use std::alloc::{AllocError, Global};
use std::cmp::Ordering;

/// What the file of a target makes, as the build directory sees it; nothing where there is no item.
pub(crate) fn made_around(
    alloc: Global,
    context: &Context<'_>,
    item: Option<&Item>,
) -> Result<Texts, AllocError>
    ensures { IfOk result (λ outs. outs ≡ made_around (around context.now) (option_map (λ i. i.now) item.entry)) }
{
    match item {
        None => Ok(Texts::new(alloc)),
        Some(item) => made(alloc, context, item),
    }
}

// Puts an output, which is lent, with those that were seen. Whether it was seen before.
fn see<'a>(seen: &mut IndexSet<&'a Text>, output: &'a Text) -> Result<bool, AllocError>
    ensures seen { OnOk result (lent_texts seen.new.keys ≡ with_text (lent_texts seen.old.keys) output.now) }
    ensures before { IfOk result (λ b. b ≡ has_text (lent_texts seen.old.keys) output.now) }
{
    let is_new = seen.insert(output)?;
    Ok(!is_new)
}

// Puts a copy of a text behind others.
fn push_copy(alloc: Global, texts: &mut Vec<Text>, text: &Text) -> Result<(), AllocError>
    ensures { OnOk result (texts.new.items ≡ texts.old.items ++ text.now ∷ []) }
{
    let text = text.copy(alloc)?;
    texts.push(text)?;
    Ok(())
}

// Sees an output, and puts it behind those that are made twice where it was seen before.
fn see_one<'a>(
    alloc: Global,
    seen: &mut IndexSet<&'a Text>,
    twice: &mut Vec<Text>,
    output: &'a Text,
) -> Result<(), AllocError>
    ensures seen { OnOk result (lent_texts seen.new.keys ≡ with_text (lent_texts seen.old.keys) output.now) }
    ensures twice { OnOk result (twice.new.items
        ≡ (if has_text (lent_texts seen.old.keys) output.now then twice.old.items ++ output.now ∷ [] else twice.old.items)) }
{
    if see(seen, output)? {
        return push_copy(alloc, twice, output);
    }
    Ok(())
}

// Sees outputs, one after the other.
fn see_all<'a>(
    alloc: Global,
    seen: &mut IndexSet<&'a Text>,
    twice: &mut Vec<Text>,
    outputs: &'a [Text],
) -> Result<(), AllocError>
    ensures seen { OnOk result (lent_texts seen.new.keys ≡ with_each (lent_texts seen.old.keys) outputs.now) }
    ensures twice { OnOk result (twice.new.items ≡ twice.old.items ++ made_twice (lent_texts seen.old.keys) outputs.now) }
{
    for output in outputs {
        see_one(alloc, seen, twice, output)?;
    }
    Ok(())
}

// An output as it is shown.
fn shown(alloc: Global, build: &Path, output: &Text) -> Result<Text, AllocError>
    ensures { IfOk result (λ text. text ≡ shown build.now output.now) }
{
    match path_meant(alloc, build, output.as_bytes())? {
        Ok(path) => path.as_text().copy(alloc),
        Err(_) => output.copy(alloc),
    }
}

// The first in the order of their bytes of two texts.
fn lesser_shown(best: Option<Text>, text: Text) -> Text
    ensures { result ≡ lesser_shown best text }
{
    match best {
        None => text,
        Some(best) => match text.cmp(&best) {
            Ordering::Less => text,
            _ => best,
        },
    }
}

// The first in the order of their bytes of outputs as they are shown.
fn least_shown(alloc: Global, build: &Path, outputs: &[Text]) -> Result<Option<Text>, AllocError>
    ensures { IfOk result (λ least. least ≡ least_shown build.now None outputs.now) }
{
    let mut best: Option<Text> = None;
    for output in outputs {
        let text = shown(alloc, build, output)?;
        best = Some(lesser_shown(best, text));
    }
    Ok(best)
}

// Sees outputs, and finds the first of those that are made twice.
fn least_twice<'a>(
    alloc: Global,
    build: &Path,
    seen: &mut IndexSet<&'a Text>,
    outputs: &'a [Text],
) -> Result<Option<Text>, AllocError>
    ensures least { IfOk result (λ least. least ≡ least_shown build.now None (made_twice (lent_texts seen.old.keys) outputs.now)) }
    ensures seen { OnOk result (lent_texts seen.new.keys ≡ with_each (lent_texts seen.old.keys) outputs.now) }
{
    let mut twice = Vec::new(alloc);
    see_all(alloc, seen, &mut twice, outputs)?;
    least_shown(alloc, build, twice.as_slice())
}

// A text alone.
fn alone(alloc: Global, text: Text) -> Result<Texts, AllocError>
    ensures { IfOk result (λ texts. texts ≡ text ∷ []) }
{
    let mut texts = Texts::new(alloc);
    texts.push(text)?;
    Ok(texts)
}

// The fault of an output that is made twice.
fn told(
    alloc: Global,
    default: &Text,
    items: &ItemIndex<'_>,
    label: &Label,
    output: Text,
) -> Result<Fault, AllocError>
    ensures { IfOk result (λ fault. fault ≡ meant default.now items.now label.now SameOutput (output ∷ [])) }
{
    let detail = alone(alloc, output)?;
    fault_with(alloc, default, items, label, Code::SameOutput, detail)
}

// The fault of an output that is made twice, if there is one.
fn twice_told(
    alloc: Global,
    default: &Text,
    items: &ItemIndex<'_>,
    label: &Label,
    output: Option<Text>,
) -> Result<Option<Fault>, AllocError>
    ensures { IfOk result (λ fault. fault ≡ twice_told default.now items.now label.now output) }
{
    match output {
        None => Ok(None),
        Some(output) => Ok(Some(told(alloc, default, items, label, output)?)),
    }
}

/// Sees the outputs of a target, which are lent, and tells the first of those that are made twice.
#[tactic(auto, unfolding(crate::specs::Outputs::output_fault))]
pub(crate) fn output_fault<'a>(
    alloc: Global,
    default: &Text,
    items: &ItemIndex<'_>,
    build: &Path,
    seen: &mut IndexSet<&'a Text>,
    outputs: &'a [Text],
    label: &Label,
) -> Result<Option<Fault>, AllocError>
    ensures fault { IfOk result (λ fault. fault ≡ output_fault default.now items.now build.now (lent_texts seen.old.keys) outputs.now label.now) }
    ensures seen { OnOk result (lent_texts seen.new.keys ≡ with_each (lent_texts seen.old.keys) outputs.now) }
{
    let output = least_twice(alloc, build, seen, outputs)?;
    twice_told(alloc, default, items, label, output)
}
