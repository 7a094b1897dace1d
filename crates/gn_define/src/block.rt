// The block of an item, which gives variables their values.

ghost use Rattle.std.specs.Prelude.{◌≡◌, ℕ, List, Option, option_map};
ghost use Rattle.gn_values.specs.Val.{Val};
ghost use Rattle.gn_values.specs.View.{val_of};

use gn_values::Value;

/// A block that has ended: it gives names values.
pub trait Block {
    ghost values: { Self → List ℕ → Option Val };

    /// The value of a name; None exactly where the block gives it none.
    fn value(&self, name: &[u8]) -> Option<&Value>
        ensures { option_map (λ v. val_of v.now) result ≡ values self.now name.now };
}
