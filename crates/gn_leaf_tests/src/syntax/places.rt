// Lines and columns.

use super::error_of;
use crate::rows::{bytes_of, field, is_shown, number, table};
use gn_syntax::{SyntaxError, place_of};
use gn_tokens::TokenError;
use std::alloc::{AllocError, Global};

/// A file, an offset, and its line and column. Each character stands for the byte of its number, here and in the next table.
pub(crate) const PLACES: &str = table! {
    "", 0, "(1, 1)";
    "a\nbc", 0, "(1, 1)";
    "a\nbc", 1, "(1, 2)";
    "a\nbc", 2, "(2, 1)";
    "a\nbc", 3, "(2, 2)";
    "a\nbc", 4, "(2, 3)";
    "\n\n", 2, "(3, 1)";
    "\r\t\u{FF}.", 3, "(1, 4)";
};

/// A file, and the line and column of its first error.
pub(crate) const ERRORS: &str = table! {
    "x = ", "(1, 5)";
    "}", "(1, 1)";
    "a = 1\ny = a -1\nprint(y)\n", "(2, 7)";
    "x = [\n", "(2, 1)";
    "# a\r\n}", "(2, 1)";
    "x = \"\u{C3}\u{A9}\" 1", "(1, 10)";
    "\n\n\t&", "(3, 2)";
    "a = 1\n\nb = \"a\n", "(3, 5)";
    "a = 1\nb = \"$\"\n", "(2, 6)";
};

// Where an error stands; no file is so long as to have an offset for want of memory.
fn offset_of(error: SyntaxError) -> usize {
    match error {
        SyntaxError::Token(
            TokenError::BadByte(offset)
            | TokenError::BadNumber(offset)
            | TokenError::OpenString(offset)
            | TokenError::BadDollar(offset),
        )
        | SyntaxError::Unexpected(offset)
        | SyntaxError::TooDeep(offset) => offset,
        SyntaxError::Memory => usize::MAX,
    }
}

fn has_place(alloc: Global, bytes: &[u8], offset: usize, wanted: &str) -> Result<bool, AllocError> {
    if bytes.len() > 16777216 || offset > bytes.len() {
        return Ok(false);
    }
    is_shown(alloc, place_of(bytes, offset), wanted)
}

/// Whether an offset has the line and the column of its row.
pub(crate) fn is_place(alloc: Global, row: &str) -> Result<bool, AllocError> {
    let bytes = bytes_of(alloc, field(row, 0))?;
    has_place(alloc, &bytes, number(row, 1), field(row, 2))
}

fn has_error_at(alloc: Global, bytes: &[u8], wanted: &str) -> Result<bool, AllocError> {
    match error_of(alloc, bytes) {
        Some(error) => has_place(alloc, bytes, offset_of(error), wanted),
        None => Ok(false),
    }
}

/// Whether the first error of a file has the line and the column of its row.
pub(crate) fn is_place_of_error(alloc: Global, row: &str) -> Result<bool, AllocError> {
    let bytes = bytes_of(alloc, field(row, 0))?;
    has_error_at(alloc, &bytes, field(row, 1))
}
