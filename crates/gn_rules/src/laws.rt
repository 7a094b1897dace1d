// What holds of outputs that are made twice.

ghost use Rattle.std.specs.Prelude.{◌≡◌, ◌↔◌, ℕ, List, Some};
ghost use Rattle.gn_labels.specs.declared.label.Label.{Label};
ghost use Rattle.gn_rules.specs.Outputs.{IsMadeAgain, IsRepeated};

/// What is told of outputs that are made again is just this: a target makes an output which a target before it makes too, or which
/// it makes itself at an earlier place.
pub fn what_is_told_is_made_again()
    ensures { (made : Label → List (List ℕ)) (ts : List Label) (t : Label) (p : List ℕ) → IsRepeated made ts t p ↔ IsMadeAgain made ts t p }
{}
