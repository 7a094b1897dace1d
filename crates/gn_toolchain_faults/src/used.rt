// The toolchains that targets use.

ghost use Rattle.std.specs.Prelude.{◌≡◌, [], IfOk, OnOk, option_map};
ghost use Rattle.std.specs.List.{filter_map};
ghost use Rattle.gn_labels.specs.Labels.{spelling};
ghost use Rattle.gn_toolchains.specs.Toolchains.{lent, is_toolchain, is_definition, toolchain_at};
ghost use Rattle.gn_toolchains.specs.Frames.{with_text, with_toolchains};
ghost use Rattle.gn_toolchain_faults.specs.Used.{used, definitions};

use gn_items::{Item, ItemKind};
use gn_labels::Label;
use gn_paths::Text;
use indexmap::IndexSet;
use std::alloc::{AllocError, Global};

// Puts a text with the others, unless it is there.
fn add_text(alloc: Global, texts: &mut IndexSet<Text>, text: &Text) -> Result<(), AllocError>
    ensures { OnOk result (texts.new.keys ≡ with_text texts.old.keys text.now) }
{
    if !texts.contains(text) {
        let text = text.copy(alloc)?;
        texts.insert(text)?;
    }
    Ok(())
}

// The texts of the toolchains of targets, each once.
fn texts_of(alloc: Global, targets: &[Label]) -> Result<IndexSet<Text>, AllocError>
    ensures { IfOk result (λ texts. texts.keys ≡ with_toolchains [] targets.now) }
{
    let mut texts = IndexSet::new(alloc);
    for target in targets {
        add_text(alloc, &mut texts, &target.toolchain)?;
    }
    Ok(texts)
}

// Whether items of the kind define toolchains.
fn is_toolchain(kind: ItemKind) -> bool
    ensures { result ≡ is_toolchain kind }
{
    matches!(kind, ItemKind::Toolchain)
}

// The items that define toolchains.
fn definitions<'a>(alloc: Global, items: &[&'a Item]) -> Result<Vec<&'a Item>, AllocError>
    ensures { IfOk result (λ found. lent found.items ≡ definitions (lent items.now)) }
{
    let mut found = Vec::new(alloc);
    for item in items {
        if is_toolchain(item.kind) {
            found.push(*item)?;
        }
    }
    Ok(found)
}

/// The text of the toolchain that an item of this label defines.
pub(crate) fn text_of(alloc: Global, label: &Label) -> Result<Text, AllocError>
    ensures { IfOk result (λ t. t ≡ spelling label.now.dir label.now.name) }
{
    let mut text = label.dir.as_text().copy(alloc)?;
    text.push(b':')?;
    text.append(label.name.as_bytes())?;
    Ok(text)
}

// Whether an item defines the toolchain of this text.
fn is_definition(
    alloc: Global,
    default: &Text,
    text: &Text,
    item: &Item,
) -> Result<bool, AllocError>
    ensures { IfOk result (λ b. b ≡ is_definition default.now text.now item.now) }
{
    if is_toolchain(item.kind) && item.label.toolchain == *default {
        let own = text_of(alloc, &item.label)?;
        return Ok(own == *text);
    }
    Ok(false)
}

// The first of these items that defines the toolchain of this text.
fn toolchain_at<'a>(
    alloc: Global,
    default: &Text,
    text: &Text,
    items: &[&'a Item],
) -> Result<Option<&'a Item>, AllocError>
    ensures { IfOk result (λ found. option_map (λ i. i.now) found ≡ toolchain_at default.now text.now (lent items.now)) }
{
    for item in items {
        if is_definition(alloc, default, text, item)? {
            return Ok(Some(*item));
        }
    }
    Ok(None)
}

// Of each of these texts the first item that defines its toolchain, where there is one.
fn toolchains_at<'a>(
    alloc: Global,
    default: &Text,
    texts: &[Text],
    items: &[&'a Item],
) -> Result<Vec<&'a Item>, AllocError>
    ensures { IfOk result (λ found. lent found.items ≡ filter_map (λ text. toolchain_at default.now text (lent items.now)) texts.now) }
{
    let mut found = Vec::new(alloc);
    for text in texts {
        if let Some(item) = toolchain_at(alloc, default, text, items)? {
            found.push(item)?;
        }
    }
    Ok(found)
}

/// The toolchains that targets use, by the items that define them, each once. It goes through the items once.
pub(crate) fn used<'a>(
    alloc: Global,
    default: &Text,
    items: &[&'a Item],
    targets: &[Label],
) -> Result<Vec<&'a Item>, AllocError>
    ensures { IfOk result (λ found. lent found.items ≡ used default.now (lent items.now) targets.now) }
{
    let texts = texts_of(alloc, targets)?;
    let definitions = definitions(alloc, items)?;
    toolchains_at(alloc, default, texts.as_slice(), definitions.as_slice())
}
