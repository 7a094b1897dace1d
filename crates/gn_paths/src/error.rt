// What keeps a text from naming a path.

ghost use Rattle.std.specs.Prelude.{◌≡◌};
ghost use Rattle.gn_paths.specs.declared.error.PathError.TheVariants.{Memory};

use std::alloc::AllocError;
use thiserror::Error;

/// What keeps a text from naming a path. Want of memory is none of it.
#[derive(Clone, Copy, Debug, PartialEq, Eq)]
pub enum PathFault {
    /// A `..` climbs above the root.
    AboveRoot,
    /// The text is empty, holds a NUL or a newline, or isn't UTF-8. This stands before `AboveRoot`.
    BadPath,
}

/// Why a text gives no path.
#[derive(Clone, Copy, Debug, PartialEq, Eq, Error)]
pub enum PathError {
    /// A `..` climbs above the root.
    #[error("path is above the root")]
    AboveRoot,
    /// The text is empty, holds a NUL or a newline, or isn't UTF-8. This stands before `AboveRoot`.
    #[error("bad path")]
    BadPath,
    /// Want of memory.
    #[error("out of memory")]
    Memory,
}

impl From<AllocError> for PathError {
    ghost from_gives = { λ _ e. e ≡ Memory };

    fn from(_error: AllocError) -> PathError {
        PathError::Memory
    }
}
