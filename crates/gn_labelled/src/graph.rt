// The graph of the items of an index.

ghost use Rattle.std.specs.Prelude.{◌≡◌, map, option_map};
ghost use Rattle.gn_items.specs.declared.item.Item.{Item as Defined};
ghost use Rattle.gn_items.specs.Effects.{item_at};
ghost use Rattle.gn_define.specs.Held.{held_of};
ghost use Rattle.gn_rows.specs.declared.variable.Variable.TheVariants.{PublicDeps, Deps};
ghost use Rattle.gn_labelled.specs.Graphs.{shape_of, labels_at, kind_at, visibility_at, is_testonly_at, forbidden_at, patterns_held, place_at};
ghost use Rattle.gn_labelled.specs.Listed.{listed};

use crate::handed_on::HandedOn;
use crate::index::ItemIndex;
use gn_chains::{Graph, Node};
use gn_define::Field;
use gn_graph_faults::Places;
use gn_items::Item;
use gn_labels::{Label, Pattern};
use gn_paths::{Place, Text};
use gn_rows::{ItemKind, Variable};
use gn_rules::Marks;

/// The graph of the items of an index, with what the records of its targets hand on. It lends what they have.
#[derive(Drop)]
pub struct ItemGraph<'a, R> {
    /// The default toolchain, by the text of its label.
    pub default: &'a Text,
    /// The items.
    pub items: ItemIndex<'a>,
    /// What the records of targets hand on.
    pub records: R,
}

/// The kind of an item, if there is one.
pub(crate) fn kind_at(item: Option<&Item>) -> Option<ItemKind>
    ensures { result ≡ kind_at (option_map (λ i. i.now) item.entry) }
{
    match item {
        None => None,
        Some(item) => Some(item.kind),
    }
}

/// The labels that an item has at a variable; none where there is no item.
pub(crate) fn labels_at(item: Option<&Item>, variable: Variable) -> &[Label]
    ensures { result.now ≡ labels_at (option_map (λ i. i.now) item.entry) variable }
{
    match item {
        None => &[],
        Some(item) => item.fields.labels(variable),
    }
}

/// The kind and the public and private dependencies of an item; no kind and none where there is no item.
pub(crate) fn node_at(item: Option<&Item>) -> Node<'_>
    ensures kind { result.kind ≡ kind_at (option_map (λ i. i.now) item.entry) }
    ensures public { result.public.now ≡ labels_at (option_map (λ i. i.now) item.entry) PublicDeps }
    ensures private { result.private.now ≡ labels_at (option_map (λ i. i.now) item.entry) Deps }
{
    Node {
        kind: kind_at(item),
        public: labels_at(item, Variable::PublicDeps),
        private: labels_at(item, Variable::Deps),
    }
}

// The patterns that a field holds; None where there is none, or it holds something else.
fn patterns_held(field: Option<&Field>) -> Option<&[Pattern]>
    ensures { option_map (λ patterns. patterns.now) result ≡ patterns_held (option_map (λ f. held_of f.now) field.entry) }
{
    match field {
        Some(Field::Patterns(patterns)) => Some(patterns.as_slice()),
        _ => None,
    }
}

/// The patterns of an item's `visibility`, where it is set.
pub(crate) fn visibility_at(item: Option<&Item>) -> Option<&[Pattern]>
    ensures { option_map (λ patterns. patterns.now) result ≡ visibility_at (option_map (λ i. i.now) item.entry) }
{
    match item {
        None => None,
        Some(item) => patterns_held(item.fields.get(Variable::Visibility)),
    }
}

/// Whether an item is for tests alone.
pub(crate) fn is_testonly_at(item: Option<&Item>) -> bool
    ensures { result ≡ is_testonly_at (option_map (λ i. i.now) item.entry) }
{
    match item {
        None => false,
        Some(item) => match item.fields.boolean(Variable::Testonly) {
            None => false,
            Some(is_testonly) => is_testonly,
        },
    }
}

/// The patterns of an item's `assert_no_deps`.
pub(crate) fn forbidden_at(item: Option<&Item>) -> &[Pattern]
    ensures { result.now ≡ forbidden_at (option_map (λ i. i.now) item.entry) }
{
    match item {
        None => &[],
        Some(item) => item.fields.patterns(Variable::AssertNoDeps),
    }
}

/// Where the call stands that defines an item, if there is one.
pub(crate) fn place_at(item: Option<&Item>) -> Option<&Place>
    ensures { option_map (λ place. place.now) result ≡ place_at (option_map (λ i. i.now) item.entry) }
{
    match item {
        None => None,
        Some(item) => Some(&item.place),
    }
}

impl<'a, R: HandedOn> Graph for ItemGraph<'a, R> {
    ghost shape = { λ g. shape_of g.items };

    ghost records = { λ g. R.handed_on g.records };

    ghost default = { λ g. g.default.now };

    ghost all = { λ g. map (λ (item : Defined). item.label) g.items };

    fn default_toolchain(&self) -> &Text {
        self.default
    }

    fn kind(&self, label: &Label) -> Option<ItemKind> {
        kind_at(self.items.item(label))
    }

    fn labels(&self, label: &Label, variable: Variable) -> &[Label] {
        labels_at(self.items.item(label), variable)
    }

    fn node(&self, label: &Label) -> Node<'_> {
        node_at(self.items.item(label))
    }

    fn pushed(&self, label: &Label) -> &[Label] {
        self.records.pushed(label)
    }

    fn pushed_public(&self, label: &Label) -> &[Label] {
        self.records.pushed_public(label)
    }

    ghost listed = { λ g label h. listed label g.items h };
}

impl<'a, R: HandedOn> Marks for ItemGraph<'a, R> {
    ghost visibility = { λ g label. visibility_at (item_at label g.items) };

    ghost testonly = { λ g label. is_testonly_at (item_at label g.items) };

    ghost forbidden = { λ g label. forbidden_at (item_at label g.items) };

    fn visibility(&self, label: &Label) -> Option<&[Pattern]> {
        visibility_at(self.items.item(label))
    }

    fn is_testonly(&self, label: &Label) -> bool {
        is_testonly_at(self.items.item(label))
    }

    fn assert_no_deps(&self, label: &Label) -> &[Pattern] {
        forbidden_at(self.items.item(label))
    }
}

impl<'a, R: HandedOn> Places for ItemGraph<'a, R> {
    ghost places = { λ g label. place_at (item_at label g.items) };

    fn place(&self, label: &Label) -> Option<&Place> {
        place_at(self.items.item(label))
    }
}
