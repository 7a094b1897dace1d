// The graph of the items of an index that is lent.

ghost use Rattle.std.specs.Prelude.{◌≡◌, map};
ghost use Rattle.gn_items.specs.declared.item.Item.{Item as Defined};
ghost use Rattle.gn_labelled.specs.Graphs.{shape_of, no_records};
ghost use Rattle.gn_labelled.specs.Listed.{listed};

use crate::graph::{kind_at, labels_at, node_at};
use crate::index::ItemIndex;
use gn_chains::{Graph, Node};
use gn_labels::Label;
use gn_paths::Text;
use gn_rows::{ItemKind, Variable};

/// The graph of the items of an index that is lent, of which nothing is resolved.
#[derive(Clone, Copy)]
pub struct LentGraph<'a, 'b> {
    /// The default toolchain, by the text of its label.
    pub default: &'a Text,
    /// The items.
    pub items: &'a ItemIndex<'b>,
}

impl<'a, 'b> Graph for LentGraph<'a, 'b> {
    ghost shape = { λ g. shape_of g.items.now };

    ghost records = { λ g. no_records };

    ghost default = { λ g. g.default.now };

    ghost all = { λ g. map (λ (item : Defined). item.label) g.items.now };

    fn default_toolchain(&self) -> &Text {
        self.default
    }

    fn kind(&self, label: &Label) -> Option<ItemKind> {
        kind_at(self.items.item(label))
    }

    fn labels(&self, label: &Label, variable: Variable) -> &[Label] {
        labels_at(self.items.item(label), variable)
    }

    fn node(&self, label: &Label) -> Node<'_> {
        node_at(self.items.item(label))
    }

    fn pushed(&self, _label: &Label) -> &[Label] {
        &[]
    }

    fn pushed_public(&self, _label: &Label) -> &[Label] {
        &[]
    }

    ghost listed = { λ g label h. listed label g.items.now h };
}
