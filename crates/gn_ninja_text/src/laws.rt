//! Laws of the values of Ninja files, each as a call that does nothing and whose contract is the law.

ghost use Rattle.std.specs.Prelude.{◌≡◌, ℕ, List, Some, map};
ghost use Rattle.gn_ninja_text.specs.Escapes.{value_read};
ghost use Rattle.gn_ninja_text.specs.Values.{Byte, value_parts_read};

/// A value in which no variable stands is read the same where variables may stand: each of its bytes stands for itself.
pub fn values_without_variables_are_their_bytes()
    ensures { (text value : List ℕ) → value_read text ≡ Some value → value_parts_read text ≡ Some (map Byte value) }
{}
