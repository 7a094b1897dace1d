// What is wrong with a label that an item has.

ghost use Rattle.std.specs.Prelude.{◌≡◌};
ghost use Rattle.gn_rules.specs.Rules.{is_missing, is_foreign, hides, is_for_tests};
ghost use Rattle.gn_rules.specs.Naming.{names, breaks};

use crate::marks::Marks;
use crate::visible::is_visible;
use gn_labels::Label;
use gn_rows::ItemKind;

// What labels are to name.
#[derive(Clone, Copy)]
pub(crate) enum Naming {
    Target,
    Config,
    Pool,
}

// What is wrong with a label: no item has it; its item is of another kind than it is to name; or it names what it is to name, which
// isn't visible to the target that has the label; or it names a target for tests alone.
#[derive(Clone, Copy)]
pub(crate) enum Rule {
    Missing,
    Foreign(Naming),
    Hidden(Naming),
    ForTests,
}

// Whether an item of this kind is what a label is to name.
fn is_named(naming: Naming, kind: Option<ItemKind>) -> bool
    ensures { result ≡ names naming kind }
{
    match naming {
        Naming::Target => match kind {
            None => false,
            Some(kind) => kind.is_target(),
        },
        Naming::Config => match kind {
            Some(ItemKind::Config) => true,
            _ => false,
        },
        Naming::Pool => match kind {
            Some(ItemKind::Pool) => true,
            _ => false,
        },
    }
}

// Whether the item of a label is of another kind.
fn is_foreign<G: Marks>(graph: &G, label: &Label, naming: Naming) -> bool
    ensures { result ≡ is_foreign (names naming) (G.shape graph.now) label.now }
{
    let kind = graph.kind(label);
    if is_named(naming, kind) {
        false
    } else {
        kind.is_some()
    }
}

// Whether a label names what it is to name, which isn't visible to the target.
fn is_hidden<G: Marks>(graph: &G, target: &Label, label: &Label, naming: Naming) -> bool
    ensures { result ≡ hides (names naming) (G.shape graph.now) (G.visibility graph.now) target.now label.now }
{
    if is_named(naming, graph.kind(label)) {
        !is_visible(graph.visibility(label), target)
    } else {
        false
    }
}

// Whether a label names a target for tests alone.
fn is_for_tests<G: Marks>(graph: &G, label: &Label) -> bool
    ensures { result ≡ is_for_tests (G.shape graph.now) (G.testonly graph.now) label.now }
{
    if is_named(Naming::Target, graph.kind(label)) {
        graph.is_testonly(label)
    } else {
        false
    }
}

// Whether this is wrong with a label that a target has.
pub(crate) fn breaks<G: Marks>(graph: &G, target: &Label, label: &Label, rule: Rule) -> bool
    ensures { result ≡ breaks rule (G.shape graph.now) (G.visibility graph.now) (G.testonly graph.now) target.now label.now }
{
    match rule {
        Rule::Missing => graph.kind(label).is_none(),
        Rule::Foreign(naming) => is_foreign(graph, label, naming),
        Rule::Hidden(naming) => is_hidden(graph, target, label, naming),
        Rule::ForTests => is_for_tests(graph, label),
    }
}
