// A label, how it is printed, and label order.

ghost use Rattle.std.specs.Prelude.{◌≡◌, ◌++◌, IfOk, OnOk};
ghost use Rattle.gn_labels.specs.Labels.{spelling, toolchain_suffix, printed, toolchain_order, label_order, is_before};

use gn_paths::{Path, Text};
use std::alloc::{AllocError, Global};
use std::cmp::Ordering;

/// A label, `//dir:name(toolchain)`. Two labels are equal where their parts are. The order that `Ord`
/// gives goes by directory, name and toolchain, each by its bytes; label order, which has the default
/// toolchain first, is `before`.
#[derive(Debug, Drop, PartialEq, Eq, PartialOrd, Ord, Hash)]
pub struct Label {
    /// The directory, without a final slash; the source root is `//`.
    pub dir: Path,
    /// The name.
    pub name: Text,
    /// The label of the toolchain, spelled `//dir:name`.
    pub toolchain: Text,
}

impl Label {
    /// A new label equal to this one.
    pub fn copy(&self, alloc: Global) -> Result<Label, AllocError>
        ensures { IfOk result (λ l. l ≡ self.now) }
    {
        Ok(Label {
            dir: self.dir.copy(alloc)?,
            name: self.name.copy(alloc)?,
            toolchain: self.toolchain.copy(alloc)?,
        })
    }

    /// How this label compares with the other in label order: by directory bytes, then name bytes, then
    /// the toolchain, where `default` is first and the others go by their text. It takes no memory.
    #[tactic(auto, using(gn_basics::proofs::Orders::then_equal))]
    pub fn compare(&self, other: &Label, default: &Text) -> Ordering
        ensures { result ≡ label_order default.now self.now other.now }
    {
        match self.dir.cmp(&other.dir) {
            Ordering::Less => Ordering::Less,
            Ordering::Greater => Ordering::Greater,
            Ordering::Equal => match self.name.cmp(&other.name) {
                Ordering::Less => Ordering::Less,
                Ordering::Greater => Ordering::Greater,
                Ordering::Equal => compare_toolchains(&self.toolchain, &other.toolchain, default),
            },
        }
    }

    /// Whether this label comes before the other in label order. It takes no memory.
    pub fn before(&self, other: &Label, default: &Text) -> bool
        ensures { result ≡ is_before default.now self.now other.now }
    {
        self.compare(other, default) == Ordering::Less
    }

    /// The label as text: `//dir:name`, with `(toolchain)` behind it unless the toolchain is the default
    /// one.
    pub fn print(&self, alloc: Global, default: &Text) -> Result<Text, AllocError>
        ensures { IfOk result (λ t. t ≡ printed default.now self.now) }
    {
        let mut text = spell(alloc, &self.dir, &self.name)?;
        append_toolchain(&mut text, &self.toolchain, default)?;
        Ok(text)
    }
}

/// How a toolchain compares with another: `default` is first, the others go by their text. It takes no memory.
pub fn compare_toolchains(own: &Text, other: &Text, default: &Text) -> Ordering
    ensures { result ≡ toolchain_order default.now own.now other.now }
{
    if own == default {
        return if other == default {
            Ordering::Equal
        } else {
            Ordering::Less
        };
    }
    if other == default {
        return Ordering::Greater;
    }
    own.cmp(other)
}

// A directory, a colon and a name.
pub(crate) fn spell(alloc: Global, dir: &Path, name: &Text) -> Result<Text, AllocError>
    ensures { IfOk result (λ t. t ≡ spelling dir.now name.now) }
{
    let mut text = dir.as_text().copy(alloc)?;
    text.push(b':')?;
    text.append(name.as_bytes())?;
    Ok(text)
}

// Puts a toolchain in parentheses at the end, unless it is the default one.
fn append_toolchain(text: &mut Text, toolchain: &Text, default: &Text) -> Result<(), AllocError>
    ensures { OnOk result (text.new ≡ text.old ++ toolchain_suffix default.now toolchain.now) }
{
    if toolchain == default {
        return Ok(());
    }
    text.push(b'(')?;
    text.append(toolchain.as_bytes())?;
    text.push(b')')
}
