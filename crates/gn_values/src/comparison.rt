// The operators that compare integers.

ghost use Rattle.std.specs.Prelude.{◌≡◌};
ghost use Rattle.gn_values.specs.Operators.{holds};

/// An operator that compares integers.
#[derive(Clone, Copy)]
pub enum Compare {
    /// `<`
    Less,
    /// `<=`
    LessOrEqual,
    /// `>`
    Greater,
    /// `>=`
    GreaterOrEqual,
}

impl Compare {
    /// Whether the operator holds of two integers.
    pub fn holds(self, left: i64, right: i64) -> bool
        ensures { result ≡ holds self left right }
    {
        match self {
            Compare::Less => left < right,
            Compare::LessOrEqual => left <= right,
            Compare::Greater => left > right,
            Compare::GreaterOrEqual => left >= right,
        }
    }
}
