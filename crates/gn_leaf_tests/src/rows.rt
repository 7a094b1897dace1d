// Tables of texts. A table is one text, which a macro joins from its rows, since a literal of its own costs the proof as much
// as a call: the byte 31 ends a field, and the byte 30 ends a row.

use std::alloc::{AllocError, Global};
use std::fmt::Debug;

/// A table of rows that have one to seven literals each, with a semicolon behind each row.
macro_rules! table {
    ($($a:literal;)+) => {
        concat!($($a, "\x1e"),+)
    };
    ($($a:literal, $b:literal;)+) => {
        concat!($($a, "\x1f", $b, "\x1f\x1e"),+)
    };
    ($($a:literal, $b:literal, $c:literal;)+) => {
        concat!($($a, "\x1f", $b, "\x1f", $c, "\x1f\x1e"),+)
    };
    ($($a:literal, $b:literal, $c:literal, $d:literal;)+) => {
        concat!($($a, "\x1f", $b, "\x1f", $c, "\x1f", $d, "\x1f\x1e"),+)
    };
    ($($a:literal, $b:literal, $c:literal, $d:literal, $e:literal;)+) => {
        concat!($($a, "\x1f", $b, "\x1f", $c, "\x1f", $d, "\x1f", $e, "\x1f\x1e"),+)
    };
    ($($a:literal, $b:literal, $c:literal, $d:literal, $e:literal, $f:literal;)+) => {
        concat!($($a, "\x1f", $b, "\x1f", $c, "\x1f", $d, "\x1f", $e, "\x1f", $f, "\x1f\x1e"),+)
    };
    ($($a:literal, $b:literal, $c:literal, $d:literal, $e:literal, $f:literal, $g:literal;)+) => {
        concat!($($a, "\x1f", $b, "\x1f", $c, "\x1f", $d, "\x1f", $e, "\x1f", $f, "\x1f", $g, "\x1f\x1e"),+)
    };
}

/// A table of calls that have literals as arguments, each with what it answers. The fields of a row are the name of the call, the
/// answer, and then the arguments.
macro_rules! calls {
    ($($call:ident($($argument:literal),*) => $answer:literal;)+) => {
        concat!($(stringify!($call), "\x1f", $answer, "\x1f", $($argument, "\x1f",)* "\x1e"),+)
    };
}

pub(crate) use calls;
pub(crate) use table;

/// The field of a row at a place, from 0; nothing where the row has none.
pub(crate) fn field(row: &str, place: usize) -> &str {
    row.split('\x1f').nth(place).unwrap_or("")
}

/// The number that a field says; 0 where it says none.
pub(crate) fn number(row: &str, place: usize) -> usize {
    field(row, place).parse::<usize>().unwrap_or(0)
}

/// The bytes of a text whose characters stand for the bytes of their numbers.
pub(crate) fn bytes_of(alloc: Global, text: &str) -> Result<Vec<u8>, AllocError> {
    let mut bytes = Vec::with_capacity(alloc, text.len())?;
    for character in text.chars() {
        bytes.push(u8::try_from(u32::from(character)).unwrap_or(0))?;
    }
    Ok(bytes)
}

/// Whether a value is printed so for a programmer.
pub(crate) fn is_shown<T: Debug + Copy>(
    alloc: Global,
    value: T,
    wanted: &str,
) -> Result<bool, AllocError> {
    let text = format!(in alloc; "{value:?}")?;
    Ok(text.as_str() == wanted)
}
