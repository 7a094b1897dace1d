// What the rules ask of a graph.

ghost use Rattle.std.specs.Prelude.{◌≡◌, List, Option, Bool, option_map};
ghost use Rattle.gn_labels.specs.declared.label.Label.{Label as Named};
ghost use Rattle.gn_labels.specs.declared.pattern.Pattern.{Pattern as Shape};

use gn_chains::Graph;
use gn_labels::{Label, Pattern};

/// A graph whose items say to whom they are visible, which of them are for tests alone, and what they mustn't reach. No call
/// takes memory.
pub trait Marks: Graph {
    // the patterns of each item's `visibility`, where it is set
    ghost visibility: { Self → Named → Option (List Shape) };

    // which items are for tests alone
    ghost testonly: { Self → Named → Bool };

    // the patterns of each item's `assert_no_deps`
    ghost forbidden: { Self → Named → List Shape };

    /// The patterns of the item's `visibility`; None where it isn't set, or no item has the label.
    fn visibility(&self, label: &Label) -> Option<&[Pattern]>
        ensures { option_map (λ patterns. patterns.now) result ≡ visibility self.now label.now };

    /// Whether the item of the label is for tests alone.
    fn is_testonly(&self, label: &Label) -> bool
        ensures { result ≡ testonly self.now label.now };

    /// The patterns of the item's `assert_no_deps`; none where it isn't set, or no item has the label.
    fn assert_no_deps(&self, label: &Label) -> &[Pattern]
        ensures { result.now ≡ forbidden self.now label.now };
}
