// One expression that is all of the bytes: what it is, or the first error. Offsets are counted by hand.

use super::nesting::push_parts;
use crate::rows::{field, is_shown, number, table};
use gn_syntax::{SyntaxError, parse_expr};
use gn_tree::Expr;
use std::alloc::{AllocError, Global};

/// An expression, and what stands at its top: its operator, or else its kind.
pub(crate) const EXPRESSIONS: &str = table! {
    "a", "Name";
    "  # c\n\t-1 # d", "Integer";
    "-9223372036854775808", "Integer";
    "\"$a ${b[0]}\"", "String";
    "true", "Boolean";
    "f()", "Call";
    "f(1, a) { b = 1 }", "Call";
    "a[i + 1]", "Item";
    "a.b", "Entry";
    "{ }", "Scope";
    "{ a = 1 f() if (a) { } }", "Scope";
    "(a || b)", "Parentheses";
    "[ ]", "List";
    "[ 1, a, ]", "List";
    "!!a", "Not";
    "a - 1", "Subtract";
    "!a && b", "And";
    "a || b && c", "Or";
    "(a || b) && c", "And";
    "a + b == c < d", "Equal";
};

// What an expression is whose top is no operator.
fn kind_of(expr: &Expr) -> &'static str {
    match expr {
        Expr::Name { .. } => "Name",
        Expr::Integer { .. } => "Integer",
        Expr::String { .. } => "String",
        Expr::Boolean { .. } => "Boolean",
        Expr::Call(_) => "Call",
        Expr::Item { .. } => "Item",
        Expr::Entry { .. } => "Entry",
        Expr::Scope { .. } => "Scope",
        Expr::Parentheses { .. } => "Parentheses",
        Expr::List { .. } => "List",
        Expr::Not { .. } => "Not",
        Expr::Binary { .. } => "Binary",
    }
}

fn has_top(alloc: Global, expr: &Expr, wanted: &str) -> Result<bool, AllocError> {
    match expr {
        Expr::Binary { operator, .. } => is_shown(alloc, *operator, wanted),
        _ => Ok(kind_of(expr) == wanted),
    }
}

/// Whether an expression has at its top what the row expects.
pub(crate) fn is_read(alloc: Global, row: &str) -> Result<bool, AllocError> {
    match parse_expr(alloc, field(row, 0).as_bytes()) {
        Ok(expr) => has_top(alloc, expr.get(), field(row, 1)),
        Err(_) => Ok(false),
    }
}

/// What is no expression, and its first error.
pub(crate) const REFUSED: &str = table! {
    // The end of the bytes stands behind the last one.
    "", "Unexpected(0)";
    "  # a", "Unexpected(5)";
    "(a", "Unexpected(2)";
    "a +", "Unexpected(3)";
    // Nothing comes behind the expression.
    "a b", "Unexpected(2)";
    "a)", "Unexpected(1)";
    "a else", "Unexpected(2)";
    "f() { } { }", "Unexpected(8)";
    // A statement is no expression.
    "a = 1", "Unexpected(2)";
    "if (a) { }", "Unexpected(0)";
    // A `-` directly before a digit begins an integer, and no other `-` begins an operand.
    "a -1", "Unexpected(2)";
    "- 1", "Unexpected(0)";
    // Only names have subscripts and entries, and only one.
    "a.b.c", "Unexpected(3)";
    "a[0][1]", "Unexpected(4)";
    "\"a\"[0]", "Unexpected(3)";
    // Commas.
    "[ 1,, ]", "Unexpected(4)";
    "f(a, )", "Unexpected(5)";
    // Errors of tokens and of the grammar: the one that stands first.
    "a b &", "Unexpected(2)";
    "a = &", "Unexpected(2)";
    "a &", "Token(BadByte(2))";
    "a 007", "Token(BadNumber(2))";
    "\"a", "Token(OpenString(0))";
    "\"$\"", "Token(BadDollar(1))";
    "[ 1, \"\" + &", "Token(BadByte(10))";
};

fn error_of(alloc: Global, bytes: &[u8]) -> Option<SyntaxError> {
    match parse_expr(alloc, bytes) {
        Ok(_) => None,
        Err(error) => Some(error),
    }
}

/// Whether bytes that are no expression have the error of their row.
pub(crate) fn is_refused(alloc: Global, row: &str) -> Result<bool, AllocError> {
    match error_of(alloc, field(row, 0).as_bytes()) {
        Some(error) => is_shown(alloc, error, field(row, 1)),
        None => Ok(false),
    }
}

/// What nests 200 times, as in a file, and the offset of the token that is too deep where it nests once more.
pub(crate) const NESTS: &str = table! {
    "", "(", "a", ")", "", 200;
    "", "!", "a", "", "", 200;
    "", "f(", "", ")", "", 401;
    "", "{x=", "a", "}", "", 600;
    "a", "+a", "", "", "", 401;
};

fn error_at(alloc: Global, row: &str, count: usize) -> Result<Option<SyntaxError>, AllocError> {
    let mut bytes = Vec::new(alloc);
    push_parts(&mut bytes, row, count)?;
    Ok(error_of(alloc, &bytes))
}

/// Whether an expression nests 200 times and no more.
pub(crate) fn is_limited(alloc: Global, row: &str) -> Result<bool, AllocError> {
    let deepest = error_at(alloc, row, 200)?;
    let deeper = error_at(alloc, row, 201)?;
    Ok(deepest == None && deeper == Some(SyntaxError::TooDeep(number(row, 5))))
}
