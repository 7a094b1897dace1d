// Sums and differences of integers of 64 signed bits.

ghost use Rattle.std.specs.Prelude.{◌≡◌, ◌+ℤ◌, ◌-ℤ◌};
ghost use Rattle.gn_values.specs.Operators.{integer_of};

use crate::error::ValueError;

/// The sum, or `Overflow` where it is outside signed 64 bits.
pub fn sum(left: i64, right: i64) -> Result<i64, ValueError>
    ensures { result ≡ integer_of (left +ℤ right) }
{
    left.checked_add(right).ok_or(ValueError::Overflow)
}

/// The difference, or `Overflow` where it is outside signed 64 bits.
pub fn difference(left: i64, right: i64) -> Result<i64, ValueError>
    ensures { result ≡ integer_of (left -ℤ right) }
{
    left.checked_sub(right).ok_or(ValueError::Overflow)
}
