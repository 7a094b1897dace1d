// Names with their numbers, quoted texts and numbers in decimal: each call once, with ample memory.

use crate::rows::{field, number, table};
use gn_text::{Names, decimal, quote};
use std::alloc::{AllocError, Global};

// A name, and the number that it has once the names before it have theirs.
const INTERNED: &str = table! {
    "x", 0;
    "deps", 1;
    "", 2;
    "x", 0;
    "", 2;
    "deps2", 3;
};

fn is_interned(names: &mut Names, row: &str) -> Result<bool, AllocError> {
    let interned = names.intern(field(row, 0).as_bytes())?;
    Ok(interned == number(row, 1))
}

fn are_interned(names: &mut Names) -> Result<bool, AllocError> {
    for row in INTERNED.split_terminator('\x1e') {
        if !is_interned(names, row)? {
            return Ok(false);
        }
    }
    Ok(true)
}

// What the names answer once they are interned.
fn are_known(names: &Names) -> bool {
    names.number(b"deps") == Some(1)
        && names.number(b"dep") == None
        && names.name(1) == Some(&b"deps"[..])
        && names.name(3).is_some()
        && names.name(4).is_none()
}

/// Whether names have the numbers that their table expects.
pub(crate) fn have_numbers(alloc: Global) -> Result<bool, AllocError> {
    let mut names = Names::new(alloc);
    let is_empty = names.name(0).is_none();
    let interned = are_interned(&mut names);
    let are_known = are_known(&names);
    drop(names);
    Ok(is_empty && are_known && interned?)
}

/// Texts as they are quoted.
pub(crate) const QUOTED: &str = table! {
    "q\"", "\"q\\\"\"";
    "", "\"\"";
    "a$b\\c", "\"a\\$b\\\\c\"";
};

/// Whether the text of a row is quoted so.
pub(crate) fn is_quoted(alloc: Global, row: &str) -> Result<bool, AllocError> {
    let quoted = quote(alloc, field(row, 0).as_bytes())?;
    Ok(quoted.as_slice() == field(row, 1).as_bytes())
}

/// Numbers as they are written.
pub(crate) const DECIMALS: &str = table! {
    0;
    7;
    "-10";
    "-9223372036854775808";
    9223372036854775807;
};

/// Whether a number is written so.
pub(crate) fn is_written(alloc: Global, text: &str) -> Result<bool, AllocError> {
    let written = decimal(alloc, text.parse::<i64>().unwrap_or(1))?;
    Ok(written.as_slice() == text.as_bytes())
}
