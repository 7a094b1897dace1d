// The items that define toolchains.

ghost use Rattle.std.specs.Prelude.{◌≡◌, IfOk, option_map};
ghost use Rattle.gn_labels.specs.Labels.{spelling};
ghost use Rattle.gn_toolchains.specs.Toolchains.{lent, is_toolchain, is_definition, toolchain_at, tools_in, tools_of};

use gn_items::{Item, ItemKind, Tools};
use gn_labels::Label;
use gn_paths::Text;
use std::alloc::{AllocError, Global};

// Whether items of the kind define toolchains.
fn is_toolchain(kind: ItemKind) -> bool
    ensures { result ≡ is_toolchain kind }
{
    matches!(kind, ItemKind::Toolchain)
}

// The directory and the name of a label.
fn spelling(alloc: Global, label: &Label) -> Result<Text, AllocError>
    ensures { IfOk result (λ t. t ≡ spelling label.now.dir label.now.name) }
{
    let mut text = label.dir.as_text().copy(alloc)?;
    text.push(b':')?;
    text.append(label.name.as_bytes())?;
    Ok(text)
}

// Whether an item defines the toolchain of this text.
fn is_definition(
    alloc: Global,
    default: &Text,
    text: &Text,
    item: &Item,
) -> Result<bool, AllocError>
    ensures { IfOk result (λ b. b ≡ is_definition default.now text.now item.now) }
{
    if is_toolchain(item.kind) && item.label.toolchain == *default {
        let own = spelling(alloc, &item.label)?;
        return Ok(own == *text);
    }
    Ok(false)
}

// The first of these items that defines the toolchain of this text.
fn toolchain_at<'a>(
    alloc: Global,
    default: &Text,
    text: &Text,
    items: &[&'a Item],
) -> Result<Option<&'a Item>, AllocError>
    ensures { IfOk result (λ found. option_map (λ i. i.now) found ≡ toolchain_at default.now text.now (lent items.now)) }
{
    for item in items {
        if is_definition(alloc, default, text, item)? {
            return Ok(Some(*item));
        }
    }
    Ok(None)
}

// New tools equal to those of an item, which share the fields with them; none where there is no item.
fn tools_in(alloc: Global, item: Option<&Item>) -> Result<Tools, AllocError>
    ensures { IfOk result (λ tools. tools ≡ tools_in (option_map (λ i. i.now) item.entry)) }
{
    match item {
        None => Ok(Tools::new(alloc)),
        Some(item) => item.tools.copy(alloc),
    }
}

/// The tools of the toolchain of this text, which share their fields with those of the first item that defines it; none where no
/// item does. It goes through the items.
pub fn tools_of(
    alloc: Global,
    default: &Text,
    text: &Text,
    items: &[&Item],
) -> Result<Tools, AllocError>
    ensures { IfOk result (λ tools. tools ≡ tools_of default.now text.now (lent items.now)) }
{
    let item = toolchain_at(alloc, default, text, items)?;
    tools_in(alloc, item)
}
