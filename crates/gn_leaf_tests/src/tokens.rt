// Bytes and their tokens.

use crate::rows::{bytes_of, field, is_shown, table};
use gn_tokens::{Token, TokenError, TokenKind, Tokens, integer_value};
use std::alloc::{AllocError, Global};

/// A file, its tokens with their places, and the error that ends them. Each character stands for the byte of its number.
pub(crate) const FILES: &str = table! {
    "", "", "";
    "y = a -1", "Identifier 0 1|Assign 2 3|Identifier 4 5|Integer 6 8|", "";
    "a--1", "Identifier 0 1|Minus 1 2|Integer 2 4|", "";
    "if else true false iff _1#if\n\r\tif # if", "If 0 2|Else 3 7|True 8 12|False 13 18|Identifier 19 22|Identifier 23 25|If 31 33|", "";
    "= += -= + - == != < <= > >=", "Assign 0 1|AddAssign 2 4|SubAssign 5 7|Plus 8 9|Minus 10 11|Equal 12 14|NotEqual 15 17|Less 18 19|LessEqual 20 22|Greater 23 24|GreaterEqual 25 27|", "";
    "&&||!.,()[]{}", "And 0 2|Or 2 4|Not 4 5|Dot 5 6|Comma 6 7|OpenParen 7 8|CloseParen 8 9|OpenBracket 9 10|CloseBracket 10 11|OpenBrace 11 12|CloseBrace 12 13|", "";
    "0 9223372036854775807 -9223372036854775808", "Integer 0 1|Integer 2 21|Integer 22 42|", "";
    " 9223372036854775808", "", "BadNumber(1)";
    "-9223372036854775809", "", "BadNumber(0)";
    "12a", "", "BadNumber(0)";
    "1_", "", "BadNumber(0)";
    "007", "", "BadNumber(0)";
    "-0", "", "BadNumber(0)";
    "x & y", "Identifier 0 1|", "BadByte(2)";
    "\u{EF}\u{BB}\u{BF}x", "", "BadByte(0)";
    "\x0c", "", "BadByte(0)";
    "\"a\\n\" \"a\\\"b\" \"\\\\\" \"\\$x\" \"\x00\u{FF}\"", "Str 0 5|Str 6 12|Str 13 17|Str 18 23|Str 24 28|", "";
    "\"a$0x0Ab$0xfF\" \"$a ${a}.${a[i]}\" \"${a[-1]}${a.b}\"", "Str 0 14|Str 15 32|Str 33 49|", "";
    "\"$0X41\"", "", "BadDollar(1)";
    "\"a$\"", "", "BadDollar(2)";
    "x = \"a$ \n\"", "Identifier 0 1|Assign 2 3|", "OpenString(4)";
    "\"\\\"", "", "OpenString(0)";
    "\"$\" \"", "", "BadDollar(1)";
    "#\"\n", "", "";
};

fn is_token(alloc: Global, token: Token, wanted: &str) -> Result<bool, AllocError> {
    let Token { kind, start, end } = token;
    let text = format!(in alloc; "{kind:?} {start} {end}")?;
    Ok(text.as_str() == wanted)
}

fn gives(alloc: Global, tokens: &mut Tokens<'_>, wanted: &str) -> Result<bool, AllocError> {
    match tokens.next() {
        Ok(Some(token)) => is_token(alloc, token, wanted),
        _ => Ok(false),
    }
}

// Whether these come next.
fn give(alloc: Global, tokens: &mut Tokens<'_>, wanted: &str) -> Result<bool, AllocError> {
    for token in wanted.split_terminator('|') {
        if !gives(alloc, tokens, token)? {
            return Ok(false);
        }
    }
    Ok(true)
}

fn ends_with(alloc: Global, tokens: &mut Tokens<'_>, wanted: &str) -> Result<bool, AllocError> {
    match tokens.next() {
        Ok(None) => Ok(wanted.is_empty()),
        Ok(Some(_)) => Ok(false),
        Err(error) => is_shown(alloc, error, wanted),
    }
}

// Whether these are the tokens, and the end is told again and again.
fn has_tokens(alloc: Global, bytes: &[u8], row: &str) -> Result<bool, AllocError> {
    let mut tokens = Tokens::new(bytes);
    Ok(
        give(alloc, &mut tokens, field(row, 1))?
            && ends_with(alloc, &mut tokens, field(row, 2))?
            && ends_with(alloc, &mut tokens, field(row, 2))?,
    )
}

/// Whether the file of a row is cut into its tokens.
pub(crate) fn is_cut(alloc: Global, row: &str) -> Result<bool, AllocError> {
    let bytes = bytes_of(alloc, field(row, 0))?;
    has_tokens(alloc, &bytes, row)
}

/// Strings with one `$` at the front that is no expansion.
pub(crate) const BAD_DOLLARS: &str = table! {
    "\"$if\"";
    "\"${true}\"";
    "\"${a.if}\"";
    "\"${a[if]}\"";
    "\"${ a }\"";
    "\"${a[0 ]}\"";
    "\"${a.b.c}\"";
    "\"${}\"";
    "\"${a[01]}\"";
    "\"${a[-0]}\"";
    "\"${a[9223372036854775808]}\"";
    "\"$0x4\"";
    "\"$1\"";
    "\"${a\"";
};

/// Whether a text is refused at its `$`.
pub(crate) fn is_bad_dollar(text: &str) -> bool {
    let mut tokens = Tokens::new(text.as_bytes());
    tokens.next() == Err(TokenError::BadDollar(1))
}

/// Integers.
pub(crate) const INTEGERS: &str = table! {
    " -17 ";
    9223372036854775807;
    "-9223372036854775808";
};

// The integer at the front.
fn first_integer(text: &[u8]) -> Option<i64> {
    let mut tokens = Tokens::new(text);
    match tokens.next() {
        Ok(
            Some(
                Token {
                    kind: TokenKind::Integer,
                    start,
                    end,
                },
            ),
        ) => Some(integer_value(&text[start..end])),
        _ => None,
    }
}

/// Whether a text is an integer that has its value.
pub(crate) fn has_value(text: &str) -> bool {
    first_integer(text.as_bytes()) == text.trim().parse::<i64>().ok()
}
