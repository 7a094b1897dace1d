// What no clause says: that the definitions mean what the language says, and that the stack is large enough. Offsets,
// places and counts are counted by hand.

pub(crate) mod expressions;
pub(crate) mod files;
pub(crate) mod nesting;
pub(crate) mod places;
mod sizes;
pub(crate) mod trees;

use crate::rows::is_shown;
use gn_syntax::{SyntaxError, parse};
pub(crate) use nesting::push_deepest_left;
use std::alloc::{AllocError, Global};

/// The first error of a file, none where it parses.
fn error_of(alloc: Global, bytes: &[u8]) -> Option<SyntaxError> {
    match parse(alloc, bytes) {
        Ok(_) => None,
        Err(error) => Some(error),
    }
}

/// Whether this is the first error of a file; the empty text is for a file that parses.
fn has_error(alloc: Global, bytes: &[u8], wanted: &str) -> Result<bool, AllocError> {
    match error_of(alloc, bytes) {
        Some(error) => is_shown(alloc, error, wanted),
        None => Ok(wanted.is_empty()),
    }
}

/// Text so many times.
fn push_times(bytes: &mut Vec<u8>, text: &str, count: usize) -> Result<(), AllocError> {
    for _ in 0..count {
        bytes.extend_from_slice(text.as_bytes())?;
    }
    Ok(())
}
