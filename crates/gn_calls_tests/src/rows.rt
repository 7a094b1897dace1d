// Tables of texts. A table is one text, which a macro joins from its rows, since a literal of its own costs the proof as much
// as a call: the byte 31 ends a field, the byte 30 a row, and within a field the byte 29 ends an argument or an assignment.
//
// Values stand in a table as the language writes them, and the values that are expected as they are printed. A string
// that is an argument and has a backslash is written raw, as `r"\b"`. A character stands for the low byte of its number: `ÿ` for
// the byte 255, and the picture of a control character for that character, as `␀` for the byte 0. A list that is an argument holds
// no list, and no string with a comma before a space. `{}` is an empty scope, and `deep(n)` a list that nests n deep. `long(n)` is a
// string of n bytes `a`, `long(n, "x")` one of n bytes `a` behind `x`, `repeat(n, "x")` n times `x`, and `many(n, "x")` a list of n strings
// `x`. An answer `long(n)` is any string of n bytes, and an answer `many(n)` any list of n items.

use gn_calls_text::CallError;
use gn_faults::Code;
use gn_paths::Text;
use gn_values::{Entries, Items, Value, print_text};
use std::alloc::{AllocError, Global};
use std::fmt::Debug;

/// A table of calls, each with what it answers: a value, or a code, with the number of the argument behind it if the fault
/// stands there. Where it matters, the place of the call stands in front of it.
macro_rules! calls {
    ($($call:ident($($argument:expr),*) => $answer:expr;)+) => {
        concat!($(stringify!($call), "\x1f", $(stringify!($argument), "\x1d",)* "\x1f", stringify!($answer), "\x1f\x1e"),+)
    };
    ($($place:ident: $call:ident($($argument:expr),*) => $answer:expr;)+) => {
        concat!($(stringify!($call), "\x1f", $(stringify!($argument), "\x1d",)* "\x1f", stringify!($answer), "\x1f", stringify!($place), "\x1f\x1e"),+)
    };
}

pub(crate) use calls;

/// The field of a row at a place, from 0; nothing where the row has none.
pub(crate) fn field(row: &str, place: usize) -> &str {
    row.split('\x1f').nth(place).unwrap_or("")
}

/// What stands between the first two quotes; nothing where there are none.
pub(crate) fn quoted(text: &str) -> &str {
    text.split('"').nth(1).unwrap_or("")
}

/// What stands in front of the first such character; all where there is none.
pub(crate) fn before(text: &str, mark: char) -> &str {
    text.split(mark).next().unwrap_or("")
}

/// Whether a value is printed so for a programmer.
pub(crate) fn is_shown<T: Debug + Copy>(
    alloc: Global,
    value: T,
    wanted: &str,
) -> Result<bool, AllocError> {
    let text = format!(in alloc; "{value:?}")?;
    Ok(text.as_str() == wanted)
}

// The bytes of a text whose characters stand for the low bytes of their numbers.
fn bytes_of(alloc: Global, text: &str) -> Result<Vec<u8>, AllocError> {
    let mut bytes = Vec::with_capacity(alloc, text.len())?;
    for character in text.chars() {
        let [low, ..] = u32::from(character).to_le_bytes();
        bytes.push(low)?;
    }
    Ok(bytes)
}

fn string(alloc: Global, text: &str) -> Result<Value, AllocError> {
    Ok(Value::Str(Text::from_vec(bytes_of(alloc, quoted(text))?)))
}

// A string of so many bytes `a` behind the text between quotes.
fn long(alloc: Global, text: &str) -> Result<Value, AllocError> {
    let mut bytes = bytes_of(alloc, quoted(text))?;
    bytes.resize(bytes.len().saturating_add(size(text)), b'a')?;
    Ok(Value::Str(Text::from_vec(bytes)))
}

// So many times the text between quotes.
fn repeat(alloc: Global, text: &str) -> Result<Value, AllocError> {
    let piece = bytes_of(alloc, quoted(text))?;
    let bytes = piece.as_slice().repeat(alloc, size(text))?;
    Ok(Value::Str(Text::from_vec(bytes)))
}

// A string, in each of its forms, or a boolean.
fn word(alloc: Global, text: &str) -> Result<Value, AllocError> {
    match text.as_bytes() {
        [b't', ..] => Ok(Value::Bool(true)),
        [b'l', ..] => long(alloc, text),
        [b'r', b'e', ..] => repeat(alloc, text),
        _ => string(alloc, text),
    }
}

// A string, a boolean or an integer.
fn single(alloc: Global, text: &str) -> Result<Value, AllocError> {
    match text.parse::<i64>() {
        Ok(number) => Ok(Value::Int(number)),
        Err(_) => word(alloc, text),
    }
}

fn put(items: &mut Items, value: Value) -> Result<(), AllocError> {
    match items.push(value) {
        Ok(()) => Ok(()),
        Err(_) => Err(AllocError),
    }
}

fn put_single(alloc: Global, items: &mut Items, text: &str) -> Result<(), AllocError> {
    put(items, single(alloc, text)?)
}

fn list(alloc: Global, text: &str) -> Result<Value, AllocError> {
    let mut items = Items::new(alloc);
    for item in text.trim_matches(['[', ']']).split_terminator(", ") {
        put_single(alloc, &mut items, item)?;
    }
    Ok(Value::List(items))
}

fn put_copy(alloc: Global, items: &mut Items, value: &Value) -> Result<(), AllocError> {
    put(items, value.copy(alloc)?)
}

// A list of so many copies of a value.
fn copies(alloc: Global, value: &Value, count: usize) -> Result<Items, AllocError> {
    let mut items = Items::new(alloc);
    for _ in 0..count {
        put_copy(alloc, &mut items, value)?;
    }
    Ok(items)
}

// A list of so many strings.
fn many(alloc: Global, text: &str) -> Result<Value, AllocError> {
    let value = string(alloc, text)?;
    Ok(Value::List(copies(alloc, &value, size(text))?))
}

fn list_of_one(alloc: Global, value: Value) -> Result<Value, AllocError> {
    let mut items = Items::new(alloc);
    put(&mut items, value)?;
    Ok(Value::List(items))
}

fn deep(alloc: Global, depth: usize) -> Result<Value, AllocError> {
    let mut value = Value::Int(1);
    for _ in 0..depth {
        value = list_of_one(alloc, value)?;
    }
    Ok(value)
}

// The first number between brackets.
fn size(text: &str) -> usize {
    text.split(['(', ')', ','])
        .nth(1)
        .unwrap_or("")
        .parse::<usize>()
        .unwrap_or(0)
}

/// The value that a table writes so.
pub(crate) fn value(alloc: Global, text: &str) -> Result<Value, AllocError> {
    match text.as_bytes() {
        [b'[', ..] => list(alloc, text),
        [b'{', ..] => Ok(Value::Scope(Entries::new(alloc))),
        [b'd', ..] => deep(alloc, size(text)),
        [b'm', ..] => many(alloc, text),
        _ => single(alloc, text),
    }
}

fn put_value(alloc: Global, values: &mut Vec<Value>, text: &str) -> Result<(), AllocError> {
    values.push(value(alloc, text)?)?;
    Ok(())
}

/// The values of a call's arguments.
pub(crate) fn values(alloc: Global, arguments: &str) -> Result<Vec<Value>, AllocError> {
    let mut values = Vec::new(alloc);
    for argument in arguments.split_terminator('\x1d') {
        put_value(alloc, &mut values, argument)?;
    }
    Ok(values)
}

fn is_printed(alloc: Global, value: &Value, wanted: &str) -> Result<bool, AllocError> {
    let wanted = bytes_of(alloc, wanted)?;
    let printed = print_text(alloc, value, true)?;
    Ok(printed.as_bytes() == wanted.as_slice())
}

// Whether a value is as a table writes it.
fn is_value(alloc: Global, value: &Value, wanted: &str) -> Result<bool, AllocError> {
    match (value, wanted.as_bytes()) {
        (Value::Str(text), [b'l', ..]) => Ok(text.len() == size(wanted)),
        (Value::List(items), [b'm', ..]) => Ok(items.as_slice().len() == size(wanted)),
        _ => is_printed(alloc, value, wanted),
    }
}

fn is_code(
    alloc: Global,
    code: Code,
    argument: Option<u32>,
    wanted: &str,
) -> Result<bool, AllocError> {
    let text = match argument {
        Some(at) => format!(in alloc; "{code:?}({at})")?,
        None => format!(in alloc; "{code:?}")?,
    };
    Ok(text.as_str() == wanted)
}

/// Whether a call answers what a table writes so.
pub(crate) fn is_answer(
    alloc: Global,
    answered: &Result<Value, CallError>,
    wanted: &str,
) -> Result<bool, AllocError> {
    match answered {
        Ok(value) => is_value(alloc, value, wanted),
        Err(CallError::Refused { code, argument }) => is_code(alloc, *code, *argument, wanted),
        Err(CallError::Memory) => Ok(false),
    }
}
