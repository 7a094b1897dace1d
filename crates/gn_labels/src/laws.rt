// What holds of labels and patterns that were read, and of label order: it is a strict total order, whichever toolchain
// is the default one.

ghost use Rattle.std.specs.Prelude.{◌≡◌, ◌⊎◌, List, ℕ, true, false, Some, Ok, Err};
ghost use Rattle.std.specs.List.{list_any, before_first};
ghost use Rattle.gn_paths.specs.Normal.{IsNormal};
ghost use Rattle.gn_labels.specs.declared.error.LabelFault.TheVariants.{BadLabel};
ghost use Rattle.gn_labels.specs.declared.error.PatternFault.TheVariants.{BadPattern};
ghost use Rattle.gn_labels.specs.declared.label.Label.{Label};
ghost use Rattle.gn_labels.specs.Labels.{spelling, label_order, is_before};
ghost use Rattle.gn_labels.specs.Keys.{key_of};
ghost use Rattle.gn_labels.specs.Reading.{is_open, named_read, toolchain_in, label_read};
ghost use Rattle.gn_labels.specs.Patterns.{is_star, pattern_read};
ghost use Rattle.gn_labels.specs.Laws.{IsNamed, IsReadLabel, AreOne};
ghost use Rattle.gn_labels.specs.Toolchains.{toolchain_named};
ghost use Rattle.gn_labels.specs.declared.named.Named.{Named};

use crate::key::LabelKey;
use gn_paths::{
    a_path_means_itself, what_ends_in_no_slash_is_a_directory, what_is_meant_is_in_normal_form,
};

/// No label comes before itself.
pub fn label_order_is_strict()
    ensures { (default : List ℕ) → (a : Label) → is_before default a a ≡ false }
{}

/// What comes before a label that comes before a third comes before the third.
pub fn label_order_is_transitive()
    ensures { (default : List ℕ) → (a b c : Label) → is_before default a b ≡ true → is_before default b c ≡ true → is_before default a c ≡ true }
{}

/// Of two labels one comes before the other, unless they are one label.
pub fn label_order_has_no_ties()
    ensures { (default : List ℕ) → (a b : Label) → (is_before default a b ≡ true) ⊎ ((a ≡ b) ⊎ (is_before default b a ≡ true)) }
{}

/// A label that was read has a good name, a directory of the source tree in normal form without a final slash, and the
/// toolchain that was given or one that is spelled.
pub fn what_is_read_is_a_label()
    ensures { (current toolchain text : List ℕ) → (label : Label) → IsNormal current → label_read current toolchain text ≡ Ok label → IsReadLabel toolchain label }
{
    what_is_meant_is_in_normal_form();
    what_ends_in_no_slash_is_a_directory();
}

/// A text with a bad form before its toolchain or in it is a bad label, whatever its paths are.
pub fn a_bad_form_is_a_bad_label()
    ensures { (current toolchain text : List ℕ) → (named_read current (before_first is_open text) ≡ Err BadLabel) ⊎ (toolchain_in current text ≡ Err BadLabel) → label_read current toolchain text ≡ Err BadLabel }
{}

/// A text without a star is as a pattern exactly the label that it is, or has that one's fault.
pub fn a_pattern_without_a_star_is_a_label()
    ensures { (current toolchain text : List ℕ) → list_any is_star text ≡ false → AreOne (label_read current toolchain text) (pattern_read current text) }
{}

/// A text that holds a star in its toolchain alone is a bad pattern.
pub fn a_star_in_the_toolchain_alone_is_a_bad_pattern()
    ensures { (current text : List ℕ) → list_any is_star text ≡ true → list_any is_star (before_first is_open text) ≡ false → pattern_read current text ≡ Err BadPattern }
{}

/// A toolchain's text spells the name and the directory that it was made of.
pub fn a_toolchain_spells_its_name()
    ensures { (part : Named) → IsNamed part → toolchain_named (spelling part.dir part.name) ≡ Some part }
{
    a_path_means_itself();
}

/// Keys of labels that are made with one default toolchain are in label order.
pub fn keys_are_in_label_order()
    ensures { (default : List ℕ) → (a b : Label) → ⟦<LabelKey as Ord>⟧.cmp (key_of default a) (key_of default b) ≡ label_order default a b }
{}
