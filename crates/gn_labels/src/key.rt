// Labels as keys of ordered sets and maps.

ghost use Rattle.std.specs.Prelude.{◌≡◌};
ghost use Rattle.gn_labels.specs.Keys.{other_than, key_of};

use crate::label::Label;
use gn_paths::{Path, Text};

/// A label as a key of an ordered set or map: keys that are made with one default toolchain are in label order.
#[derive(Drop, PartialEq, Eq, PartialOrd, Ord)]
pub struct LabelKey {
    /// The directory of the label.
    pub dir: Path,
    /// The name of the label.
    pub name: Text,
    /// The toolchain of the label, and None where that is the default one.
    pub toolchain: Option<Text>,
}

impl LabelKey {
    /// The key of a label where `default` is the default toolchain. It takes no memory.
    pub fn new(label: Label, default: &Text) -> LabelKey
        ensures { result ≡ key_of default.now label }
    {
        let Label {
            dir,
            name,
            toolchain,
        } = label;
        LabelKey {
            dir,
            name,
            toolchain: other_than(toolchain, default),
        }
    }
}

// The toolchain, unless it is the default one.
fn other_than(toolchain: Text, default: &Text) -> Option<Text>
    ensures { result ≡ other_than default.now toolchain }
{
    if toolchain == *default {
        None
    } else {
        Some(toolchain)
    }
}
