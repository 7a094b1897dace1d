// Tables of files. A table is one text, which a macro joins from its rows, since a literal of its own costs the proof as much as
// a call: the byte 31 ends a field, the byte 30 a row. A field is a name, a colon and a value. In a value `|` ends an item of a list
// of texts, `¶` one of a list of records, and `→` stands between the parts of a record.

use gn_labels::Label;
use gn_paths::{Path, PathError, Text, Texts, resolve};
use std::alloc::{AllocError, Global};

/// A table of what is known, each row with the text that is made of it.
macro_rules! files {
    ($({ $($name:ident: $value:literal,)* } => $text:literal;)+) => {
        concat!($($(stringify!($name), ":", $value, "\x1f",)* "text:", $text, "\x1f\x1e"),+)
    };
}

pub(crate) use files;

/// The value of a row's field of this name; nothing where the row has none.
pub(crate) fn value<'a>(row: &'a str, name: &str) -> &'a str {
    for field in row.split_terminator('\x1f') {
        if is_named(field, name) {
            return behind(field, ':');
        }
    }
    ""
}

fn is_named(field: &str, name: &str) -> bool {
    field.split(':').next().unwrap_or("") == name
}

// What stands behind the first such character; nothing where there is none.
fn behind(text: &str, mark: char) -> &str {
    text.splitn(2, mark).nth(1).unwrap_or("")
}

/// The part of a record at a place, from 0; nothing where the record has none.
pub(crate) fn part(record: &str, place: usize) -> &str {
    record.split('→').nth(place).unwrap_or("")
}

fn put(alloc: Global, texts: &mut Texts, item: &str) -> Result<(), AllocError> {
    texts.push(Text::from_bytes(alloc, item.as_bytes())?)
}

/// Puts the items of a list behind the texts.
pub(crate) fn add(alloc: Global, texts: &mut Texts, list: &str) -> Result<(), AllocError> {
    for item in list.split_terminator('|') {
        put(alloc, texts, item)?;
    }
    Ok(())
}

/// Puts a value behind a text.
pub(crate) fn set(text: &mut Text, value: &str) -> Result<(), AllocError> {
    text.append(value.as_bytes())
}

/// The text of a value; none where that is empty.
pub(crate) fn optional(alloc: Global, value: &str) -> Result<Option<Text>, AllocError> {
    if value.is_empty() {
        return Ok(None);
    }
    Ok(Some(Text::from_bytes(alloc, value.as_bytes())?))
}

fn at_root(alloc: Global, text: &str) -> Result<Path, PathError> {
    let root = Path::root(alloc)?;
    resolve(alloc, &root, text.as_bytes())
}

/// The label of a directory, a name and a toolchain.
pub(crate) fn label(
    alloc: Global,
    dir: &str,
    name: &str,
    toolchain: &str,
) -> Result<Label, PathError> {
    Ok(Label {
        dir: at_root(alloc, dir)?,
        name: Text::from_bytes(alloc, name.as_bytes())?,
        toolchain: Text::from_bytes(alloc, toolchain.as_bytes())?,
    })
}

/// Whether a text is the one that a row wants.
pub(crate) fn is_wanted(text: &[u8], row: &str) -> bool {
    text == value(row, "text").as_bytes()
}
