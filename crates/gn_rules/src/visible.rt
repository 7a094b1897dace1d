// Whether an item is visible to a label.

ghost use Rattle.std.specs.Prelude.{◌≡◌, option_map};
ghost use Rattle.gn_rules.specs.Rules.{is_matched, is_visible};

use gn_labels::{Label, Pattern};

// Whether one of the patterns matches the label.
pub(crate) fn is_matched(patterns: &[Pattern], label: &Label) -> bool
    ensures { result ≡ is_matched patterns.now label.now }
{
    patterns.iter().any(|pattern| pattern.matches(label))
}

/// Whether an item is visible to a label, by the patterns of its `visibility`: one of them must match it. Where it isn't set
/// the item is visible to all, and by an empty list to none.
pub fn is_visible(visibility: Option<&[Pattern]>, label: &Label) -> bool
    ensures { result ≡ is_visible (option_map (λ patterns. patterns.now) visibility.entry) label.now }
{
    match visibility {
        None => true,
        Some(patterns) => is_matched(patterns, label),
    }
}
