// What resolving asks of a graph.

ghost use Rattle.std.specs.Prelude.{◌≡◌, ℕ, List, IsSome, true};
ghost use Rattle.gn_labels.specs.declared.label.Label.{Label as Named};
ghost use Rattle.gn_dependencies.specs.Lists.{has};
ghost use Rattle.gn_dependencies.specs.Shape.{Shape};
ghost use Rattle.gn_dependencies.specs.Configurations.{Records};
ghost use Rattle.gn_rows.specs.declared.variable.Variable.TheVariants.{PublicDeps, Deps};

use gn_labels::Label;
use gn_paths::Text;
use gn_rows::{ItemKind, Variable};

/// What a graph has of a label. It lends it.
#[derive(Clone, Copy)]
pub struct Node<'a> {
    /// The kind of its item; None where no item has the label.
    pub kind: Option<ItemKind>,
    /// Its public dependencies.
    pub public: &'a [Label],
    /// Its private dependencies.
    pub private: &'a [Label],
}

/// A graph of items, and the records of those of its targets that were resolved. It lends what it has; no call takes memory.
pub trait Graph {
    // which labels each item has at its variables, and the kinds of the items
    ghost shape: { Self → Shape };

    // what the records say that targets hand on
    ghost records: { Self → Records };

    // the default toolchain, by the text of its label
    ghost default: { Self → List ℕ };

    // labels among which are those of all items: a graph is finite
    ghost all: { Self → List Named };

    /// The default toolchain, by the text of its label.
    fn default_toolchain(&self) -> &Text
        ensures { result.now ≡ default self.now };

    /// The kind of the item of the label; None where no item has it.
    fn kind(&self, label: &Label) -> Option<ItemKind>
        ensures { result ≡ (shape self.now).kind label.now };

    /// The labels that the item of the label has at the variable; none where it isn't set, or no item has the label.
    fn labels(&self, label: &Label, variable: Variable) -> &[Label]
        ensures { result.now ≡ (shape self.now).lists label.now variable };

    /// The kind and the public and private dependencies of the label, as `kind` and `labels` give them, by one look-up.
    fn node(&self, label: &Label) -> Node<'_>
        ensures kind { result.kind ≡ (shape self.now).kind label.now }
        ensures public { result.public.now ≡ (shape self.now).lists label.now PublicDeps }
        ensures private { result.private.now ≡ (shape self.now).lists label.now Deps };

    /// What the record of the label hands on to all that depend on it; none where it has no record.
    fn pushed(&self, label: &Label) -> &[Label]
        ensures { result.now ≡ (records self.now).pushed label.now };

    /// What the record of the label hands on to those that have it as a dependency; none where it has no record.
    fn pushed_public(&self, label: &Label) -> &[Label]
        ensures { result.now ≡ (records self.now).pushed_public label.now };

    // the labels of all items are among these
    ghost listed: { (graph : Self) → (label : Named) → IsSome ((shape graph).kind label) → has (all graph) label ≡ true };
}
