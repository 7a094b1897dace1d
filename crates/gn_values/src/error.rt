// What an operator refuses.

ghost use Rattle.std.specs.Prelude.{◌≡◌, ◌≢◌};

use std::alloc::AllocError;

/// Why an operator gives no value.
#[derive(Clone, Copy, Debug, PartialEq, Eq)]
pub enum ValueError {
    /// The operator doesn't take values of these types.
    BadTypes,
    /// A sum or a difference is outside signed 64 bits.
    Overflow,
    /// An item that is to be taken away equals no item of the list.
    NotInList,
    /// The list has no item of this number.
    BadIndex,
    /// The scope has no entry of this name.
    Undefined,
    /// The value would nest deeper, or be longer, than values may.
    TooLong,
    /// Want of memory.
    Memory,
}

impl From<AllocError> for ValueError {
    ghost use Rattle.std.specs.Prelude.{◌≡◌};
    ghost use Rattle.gn_values.specs.declared.error.ValueError.TheVariants.{Memory};

    ghost from_gives = { λ _ e. e ≡ Memory };

    fn from(_error: AllocError) -> ValueError {
        ValueError::Memory
    }
}

/// Why an assignment to an element of a list or a scope isn't made. The two kinds of faults stand
/// at different places of the assignment.
#[derive(Clone, Copy, Debug)]
pub enum ElementError {
    /// The element isn't found: `BadTypes`, `BadIndex` or `Undefined`.
    Subscript(ValueError),
    /// The operator refuses the element and the value, or what it leaves is `TooLong`.
    Operator(ValueError),
    /// Want of memory.
    Memory,
}

impl From<AllocError> for ElementError {
    ghost use Rattle.std.specs.Prelude.{◌≡◌};
    ghost use Rattle.gn_values.specs.declared.error.ElementError.TheVariants.{Memory};

    ghost from_gives = { λ _ e. e ≡ Memory };

    fn from(_error: AllocError) -> ElementError {
        ElementError::Memory
    }
}

impl ElementError {
    /// The fault of an operator on an element.
    pub(crate) fn of_operator(error: ValueError) -> ElementError
        ensures memory { error ≡ ValueError.Memory → result ≡ ElementError.Memory }
        ensures operator { error ≢ ValueError.Memory → result ≡ ElementError.Operator error }
    {
        match error {
            ValueError::Memory => ElementError::Memory,
            _ => ElementError::Operator(error),
        }
    }
}
