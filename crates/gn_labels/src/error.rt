// What keeps a text from being a label or a pattern.

use gn_paths::{PathError, PathFault};
use thiserror::Error;

/// What keeps a text from being a label. Want of memory is none of it.
#[derive(Clone, Copy, Debug, PartialEq, Eq)]
pub enum LabelFault {
    /// The text has none of a label's forms, or a name in it is none. This stands before `Path`.
    BadLabel,
    /// The directory of the label, or of its toolchain, is no path. The label's stands before the
    /// toolchain's.
    Path(PathFault),
}

/// What keeps a text from being a pattern. Want of memory is none of it.
#[derive(Clone, Copy, Debug, PartialEq, Eq)]
pub enum PatternFault {
    /// The text has none of a pattern's forms, or a name in it is none. This stands before `Path`.
    BadPattern,
    /// The directory of the pattern, or of its toolchain, is no path. The pattern's stands before the
    /// toolchain's.
    Path(PathFault),
}

/// Why a text gives no label.
#[derive(Clone, Copy, Debug, PartialEq, Eq, Error)]
pub enum LabelError {
    /// The text has none of a label's forms, or a name in it is none. This stands before `Path`.
    #[error("bad label")]
    BadLabel,
    /// The directory of the label, or of its toolchain, is no path. The label's stands before the
    /// toolchain's.
    #[error("{0}")]
    Path(PathError),
    /// Want of memory.
    #[error("out of memory")]
    Memory,
}

/// Why a text gives no pattern.
#[derive(Clone, Copy, Debug, PartialEq, Eq, Error)]
pub enum PatternError {
    /// The text has none of a pattern's forms, or a name in it is none. This stands before `Path`.
    #[error("bad pattern")]
    BadPattern,
    /// The directory of the pattern, or of its toolchain, is no path. The pattern's stands before the
    /// toolchain's.
    #[error("{0}")]
    Path(PathError),
    /// Want of memory.
    #[error("out of memory")]
    Memory,
}
