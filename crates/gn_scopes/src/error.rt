// What scopes refuse, and what the end of a scope reports.

ghost use Rattle.std.specs.Prelude.{◌≡◌, ◌≢◌, ℕ};
ghost use Rattle.gn_tree.specs.declared.position.Position.{Position};
ghost use Rattle.gn_layers.specs.Errors.{refusal_of};
ghost use Rattle.gn_scopes.specs.Reports.{scope_refusal_of};

use gn_layers::AssignError;
use gn_text::Name;
use gn_tree::Position;
use gn_values::ValueError;
use std::alloc::AllocError;

/// What the layers of scopes refuse.
#[derive(Debug, Drop)]
pub enum ScopeError {
    /// At the end of a checked scope: the number of the unread name whose last assignment stands first, and where that
    /// stands.
    NoEffect(Name, Position),
    /// `=` would replace a nonempty list by a nonempty list, or a nonempty scope by a nonempty scope.
    Overwrite,
    /// `+=` and `-=` find no value of the name.
    Undefined,
    /// The operator refuses the value that the name has and the one that is assigned.
    Value(ValueError),
    /// Want of memory.
    Memory,
}

impl From<AllocError> for ScopeError {
    ghost use Rattle.std.specs.Prelude.{◌≡◌};
    ghost use Rattle.gn_scopes.specs.declared.error.ScopeError.TheVariants.{Memory};

    ghost from_gives = { λ _ e. e ≡ Memory };

    fn from(_error: AllocError) -> ScopeError {
        ScopeError::Memory
    }
}

impl ScopeError {
    /// The error for what an assignment refuses.
    pub(crate) fn of_assignment(error: AssignError) -> ScopeError
        ensures refusal { scope_refusal_of result ≡ refusal_of error }
        ensures kind { (n : ℕ) (p : Position) → result ≢ ScopeError.NoEffect n p }
    {
        match error {
            AssignError::Overwrite => ScopeError::Overwrite,
            AssignError::Undefined => ScopeError::Undefined,
            AssignError::Value(error) => ScopeError::Value(error),
            AssignError::Memory => ScopeError::Memory,
        }
    }
}
