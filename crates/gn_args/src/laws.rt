// Laws of build arguments.

ghost use Rattle.std.specs.Prelude.{◌≡◌, ◌++◌, ◌∷◌, ℕ, List, Some, None};
ghost use Rattle.std.specs.List.{AllByRecursion};
ghost use Rattle.gn_values.specs.Operators.{value_at};
ghost use Rattle.gn_values.specs.Val.{Val};
ghost use Rattle.gn_args.specs.Arguments.{applied};

/// The later list wins: a name takes the value that a list gives it where no list behind that one has the name, and its
/// default where none has it.
#[tactic(auto, using(crate::proofs::LastOverride::given_last, crate::proofs::LastOverride::given_nowhere))]
pub fn the_last_override_counts()
    ensures given { (before after : List (List (List ℕ × Val))) (list : List (List ℕ × Val)) (name : List ℕ) (value default : Val)
        → value_at name list ≡ Some value → AllByRecursion (λ l. value_at name l ≡ None) after
        → applied (before ++ list ∷ after) name default ≡ value }
    ensures nowhere { (lists : List (List (List ℕ × Val))) (name : List ℕ) (default : Val)
        → AllByRecursion (λ l. value_at name l ≡ None) lists → applied lists name default ≡ default }
{}
