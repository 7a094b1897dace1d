// The graph of the items of an index, with one of its targets beside it.

ghost use Rattle.std.specs.Prelude.{◌≡◌, map, option_map};
ghost use Rattle.gn_items.specs.declared.item.Item.{Item as Defined};
ghost use Rattle.gn_items.specs.Effects.{item_at};
ghost use Rattle.gn_labelled.specs.Index.{place_of};
ghost use Rattle.gn_labelled.specs.Graphs.{shape_of, visibility_at, is_testonly_at, forbidden_at, place_at, no_records};
ghost use Rattle.gn_labelled.specs.Listed.{listed};

use crate::graph::{
    forbidden_at, is_testonly_at, kind_at, labels_at, node_at, place_at, visibility_at,
};
use crate::index::ItemIndex;
use gn_chains::{Graph, Node};
use gn_graph_faults::Places;
use gn_items::Item;
use gn_labels::{Label, Pattern};
use gn_paths::{Place, Text};
use gn_rows::{ItemKind, Variable};
use gn_rules::Marks;

/// The graph of the items of an index, of which nothing is resolved, beside one of its targets: the item of the target is looked up
/// once, so that what is asked of it again and again takes no look-up.
#[derive(Clone, Copy)]
pub struct TargetGraph<'a, 'b> {
    /// The default toolchain, by the text of its label.
    pub default: &'a Text,
    /// The items.
    pub items: &'a ItemIndex<'b>,
    // The target, and the place of its item.
    target: &'a Label,
    place: Option<usize>,

    ghost found: { place ≡ place_of target.now items.now },
}

impl<'a, 'b> TargetGraph<'a, 'b> {
    /// The graph of these items beside a target.
    pub fn beside(
        default: &'a Text,
        items: &'a ItemIndex<'b>,
        target: &'a Label,
    ) -> TargetGraph<'a, 'b>
        ensures default { result.default.now ≡ default.now }
        ensures items { result.items.now ≡ items.now }
        ensures target { result.target.now ≡ target.now }
    {
        let place = items.place(target);
        TargetGraph {
            default,
            items,
            target,
            place,
        }
    }

    /// The first item that has the label; None where no item has it. It takes no memory.
    pub fn item(&self, label: &Label) -> Option<&'b Item>
        ensures { option_map (λ item. item.now) result ≡ item_at label.now self.now.items.now }
    {
        if *label == *self.target {
            self.items.at(self.place)
        } else {
            self.items.item(label)
        }
    }
}

impl<'a, 'b> Graph for TargetGraph<'a, 'b> {
    ghost shape = { λ g. shape_of g.items.now };

    ghost records = { λ g. no_records };

    ghost default = { λ g. g.default.now };

    ghost all = { λ g. map (λ (item : Defined). item.label) g.items.now };

    fn default_toolchain(&self) -> &Text {
        self.default
    }

    fn kind(&self, label: &Label) -> Option<ItemKind> {
        kind_at(self.item(label))
    }

    fn labels(&self, label: &Label, variable: Variable) -> &[Label] {
        labels_at(self.item(label), variable)
    }

    fn node(&self, label: &Label) -> Node<'_> {
        node_at(self.item(label))
    }

    fn pushed(&self, _label: &Label) -> &[Label] {
        &[]
    }

    fn pushed_public(&self, _label: &Label) -> &[Label] {
        &[]
    }

    ghost listed = { λ g label h. listed label g.items.now h };
}

impl<'a, 'b> Marks for TargetGraph<'a, 'b> {
    ghost visibility = { λ g label. visibility_at (item_at label g.items.now) };

    ghost testonly = { λ g label. is_testonly_at (item_at label g.items.now) };

    ghost forbidden = { λ g label. forbidden_at (item_at label g.items.now) };

    fn visibility(&self, label: &Label) -> Option<&[Pattern]> {
        visibility_at(self.item(label))
    }

    fn is_testonly(&self, label: &Label) -> bool {
        is_testonly_at(self.item(label))
    }

    fn assert_no_deps(&self, label: &Label) -> &[Pattern] {
        forbidden_at(self.item(label))
    }
}

impl<'a, 'b> Places for TargetGraph<'a, 'b> {
    ghost places = { λ g label. place_at (item_at label g.items.now) };

    fn place(&self, label: &Label) -> Option<&Place> {
        place_at(self.item(label))
    }
}
