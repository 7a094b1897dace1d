// Files that parse, and the first error of those that don't.

use super::has_error;
use crate::rows::{field, table};
use std::alloc::{AllocError, Global};

/// A file, and its first error, none where it parses.
pub(crate) const FILES: &str = table! {
    "", "";
    "a = 1\ny = a - 1\nprint(y, \"${a} $0x41\")\n", "";
    "if (a) { } else if (b.c) { x += [ 1, [ 2, ], ] } else { y[0] = !d }", "";
    "f(g() { a = 1 }) { }", "";
    "x = f() { }", "";
    "x = { a.b -= { } }", "";
    "x = a - 1", "";
    "x = a--1", "";
    // A `-` directly before a digit begins an integer.
    "a = 1\ny = a -1\nprint(y)\n", "Unexpected(12)";
    "x = a-1", "Unexpected(5)";
    "x = 1 -1", "Unexpected(6)";
    "x = - 1", "Unexpected(4)";
    // Commas.
    "x = [ 1, ]", "";
    "x = [ , ]", "Unexpected(6)";
    "x = [ 1,, ]", "Unexpected(8)";
    "f(a, )", "Unexpected(5)";
    // Only names have subscripts and entries, and only one.
    "x = a.b.c", "Unexpected(7)";
    "x = a[0][1]", "Unexpected(8)";
    "x = \"a\"[0]", "Unexpected(7)";
    // Statements.
    "x y", "Unexpected(2)";
    "x = y = 1", "Unexpected(6)";
    "if a { }", "Unexpected(3)";
    "if (a) b()", "Unexpected(7)";
    "else { }", "Unexpected(0)";
    "f() { } { }", "Unexpected(8)";
    // The end of the file stands behind the last byte, and nothing comes behind the last statement.
    "x", "Unexpected(1)";
    "x = ", "Unexpected(4)";
    "x = (1", "Unexpected(6)";
    "x = 1 }", "Unexpected(6)";
    "x = 1 2", "Unexpected(6)";
    // Errors of tokens and of the grammar: the one that stands first.
    "x = 1 &", "Token(BadByte(6))";
    "x = } &", "Unexpected(4)";
    "x &", "Token(BadByte(2))";
    "x } &", "Unexpected(2)";
    "x = 007", "Token(BadNumber(4))";
    "x = 1 007", "Token(BadNumber(6))";
    "x = \"a", "Token(OpenString(4))";
    "x = \"$\"", "Token(BadDollar(5))";
};

/// Whether a file has the first error of its row, or none.
pub(crate) fn is_read(alloc: Global, row: &str) -> Result<bool, AllocError> {
    has_error(alloc, field(row, 0).as_bytes(), field(row, 1))
}
