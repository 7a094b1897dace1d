// Codes have different numbers, and the order of faults is a strict total order.

ghost use Rattle.std.specs.Prelude.{◌≡◌, ◌⊎◌, true, false};
ghost use Rattle.gn_faults.specs.declared.code.Code.{Code};
ghost use Rattle.gn_faults.specs.declared.fault.Fault.{Fault};
ghost use Rattle.gn_faults.specs.Numbers.{code_number};
ghost use Rattle.gn_faults.specs.Order.{is_before};

/// Codes with one number are one code.
pub fn codes_have_different_numbers()
    ensures { (a b : Code) → code_number a ≡ code_number b → a ≡ b }
{}

/// No fault comes before itself.
pub fn fault_order_is_strict()
    ensures { (a : Fault) → is_before a a ≡ false }
{}

/// What comes before a fault that comes before a third comes before the third.
pub fn fault_order_is_transitive()
    ensures { (a b c : Fault) → is_before a b ≡ true → is_before b c ≡ true → is_before a c ≡ true }
{}

/// Of two faults one comes before the other, unless they are one fault.
pub fn fault_order_has_no_ties()
    ensures { (a b : Fault) → (is_before a b ≡ true) ⊎ ((a ≡ b) ⊎ (is_before b a ≡ true)) }
{}
