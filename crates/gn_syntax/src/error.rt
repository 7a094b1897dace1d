// Why the bytes of a file give no tree.

ghost use Rattle.std.specs.Prelude.{◌≡◌};
ghost use Rattle.gn_syntax.specs.declared.error.SyntaxError.TheVariants.{Memory as NoMemory};
ghost use Rattle.gn_syntax.specs.declared.error.Stop.TheVariants.{Memory};
ghost use Rattle.gn_syntax.specs.Parsing.{fault_at};
ghost use Rattle.gn_syntax.specs.Reading.{fault_of};

use gn_grammar::SyntaxFault;
use gn_tokens::TokenError;
use std::alloc::{AllocError, AllocFailed};

/// The first error of bytes that spell no tree, or want of memory.
#[derive(Clone, Copy, Debug, PartialEq, Eq)]
pub enum SyntaxError {
    /// The file cannot be cut into tokens, and the tokens before the error begin some file.
    Token(TokenError),
    /// No file begins with the tokens up to the one at this offset. The end of the file counts as a token, which stands behind the last byte.
    Unexpected(usize),
    /// The token at this offset makes the nesting exceed 200.
    TooDeep(usize),
    /// There is no memory for the tree.
    Memory,
}

impl From<AllocError> for SyntaxError {
    ghost from_gives = { λ _ e. e ≡ NoMemory };

    fn from(_error: AllocError) -> Self {
        SyntaxError::Memory
    }
}

impl<T: Drop> From<AllocFailed<T>> for SyntaxError {
    ghost from_gives = { λ _ e. e ≡ NoMemory };

    fn from(_error: AllocFailed<T>) -> Self {
        SyntaxError::Memory
    }
}

/// Why the parser stops.
#[derive(Clone, Copy)]
pub(crate) enum Stop {
    /// The first error.
    Fault(SyntaxFault),
    /// There is no memory.
    Memory,
}

impl From<AllocError> for Stop {
    ghost from_gives = { λ _ e. e ≡ Memory };

    fn from(_error: AllocError) -> Self {
        Stop::Memory
    }
}

impl<T: Drop> From<AllocFailed<T>> for Stop {
    ghost from_gives = { λ _ e. e ≡ Memory };

    fn from(_error: AllocFailed<T>) -> Self {
        Stop::Memory
    }
}

/// The error that callers see.
pub(crate) fn error_of(stop: Stop) -> SyntaxError
    ensures { fault_of result ≡ fault_at stop }
{
    match stop {
        Stop::Fault(SyntaxFault::Token(error)) => SyntaxError::Token(error),
        Stop::Fault(SyntaxFault::Unexpected(offset)) => SyntaxError::Unexpected(offset),
        Stop::Fault(SyntaxFault::TooDeep(offset)) => SyntaxError::TooDeep(offset),
        Stop::Memory => SyntaxError::Memory,
    }
}
