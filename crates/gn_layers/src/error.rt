// Why an assignment is refused.

ghost use Rattle.std.specs.Prelude.{◌≡◌, ◌≢◌, Err};
ghost use Rattle.gn_layers.specs.Errors.{IsRefusalOf, IsElementRefusalOf};

use gn_values::{ElementError, ValueError};
use std::alloc::AllocError;

/// Why an assignment to a name isn't made.
#[derive(Clone, Copy, Debug)]
pub enum AssignError {
    /// `=` would replace a nonempty list by a nonempty list, or a nonempty scope by a nonempty scope.
    Overwrite,
    /// `+=` and `-=` find no value of the name.
    Undefined,
    /// The operator refuses the value that the name has and the one that is assigned.
    Value(ValueError),
    /// Want of memory.
    Memory,
}

impl From<AllocError> for AssignError {
    ghost use Rattle.std.specs.Prelude.{◌≡◌};
    ghost use Rattle.gn_layers.specs.declared.error.AssignError.TheVariants.{Memory};

    ghost from_gives = { λ _ e. e ≡ Memory };

    fn from(_error: AllocError) -> AssignError {
        AssignError::Memory
    }
}

impl AssignError {
    /// The error for what an operator refuses. Want of memory stays want of memory.
    pub fn of_operator(error: ValueError) -> AssignError
        ensures refused { error ≢ ValueError.Memory → IsRefusalOf result (Err error) }
        ensures memory { error ≡ ValueError.Memory → result ≡ AssignError.Memory }
    {
        match error {
            ValueError::Memory => AssignError::Memory,
            _ => AssignError::Value(error),
        }
    }
}

/// Why an assignment to an element of a name's value isn't made.
#[derive(Clone, Copy, Debug)]
pub enum ElementAssignError {
    /// The name has no value.
    Undefined,
    /// The element isn't found: `BadTypes`, `BadIndex` or `Undefined`.
    Subscript(ValueError),
    /// The operator refuses the element and the value, or what it leaves is `TooLong`.
    Operator(ValueError),
    /// Want of memory.
    Memory,
}

impl From<AllocError> for ElementAssignError {
    ghost use Rattle.std.specs.Prelude.{◌≡◌};
    ghost use Rattle.gn_layers.specs.declared.error.ElementAssignError.TheVariants.{Memory};

    ghost from_gives = { λ _ e. e ≡ Memory };

    fn from(_error: AllocError) -> ElementAssignError {
        ElementAssignError::Memory
    }
}

impl ElementAssignError {
    /// The error for what the assignment to an element refuses. Want of memory stays want of memory.
    pub fn of_element(error: ElementError) -> ElementAssignError
        ensures refused { error ≢ ElementError.Memory → IsElementRefusalOf result (Err error) }
        ensures memory { error ≡ ElementError.Memory → result ≡ ElementAssignError.Memory }
    {
        match error {
            ElementError::Subscript(error) => ElementAssignError::Subscript(error),
            ElementError::Operator(error) => ElementAssignError::Operator(error),
            ElementError::Memory => ElementAssignError::Memory,
        }
    }
}
