// What the names of executions tell apart.

ghost use Rattle.std.specs.Prelude.{◌≡◌, List, ℕ, Some};
ghost use Rattle.gn_items.specs.declared.key.Key.{Key};
ghost use Rattle.gn_items.specs.Names.{execution_name};

/// Executions of different keys differ in their names: those of two build files, of an early and a usual import, and of one
/// file under two toolchains.
pub fn executions_of_different_keys_differ()
    ensures { (a b : Key) (name : List ℕ) → execution_name a ≡ Some name → execution_name b ≡ Some name → a ≡ b }
{}
