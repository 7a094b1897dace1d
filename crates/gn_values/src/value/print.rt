// The text of a value.

ghost use Rattle.std.specs.Prelude.{◌≡◌, ◌++◌, ◌==◌, [], IfOk, OnOk, codes, if◌then◌else◌};
ghost use Rattle.std.specs.Fmt.{signed_decimal};
ghost use Rattle.gn_text.specs.Quoted.{quoted as in_quotes};
ghost use Rattle.gn_values.specs.Val.{vals_of, binds_of};
ghost use Rattle.gn_values.specs.Text.{text_of, inner_text, items_text, entries_text};
ghost use Rattle.gn_values.specs.View.{val_of};

use crate::value::{Entries, Items, Value};
use gn_paths::Text;
use gn_text::{decimal, quote};
use std::alloc::{AllocError, Global};

/// The text of a value. A string by itself stands as it is, or between quotes where `quoted` is
/// set; inside a list or a scope it is always quoted. It is made by appending to one buffer.
#[tactic(auto, unfolding(crate::specs::Text::text_of))]
pub fn print_text(alloc: Global, value: &Value, quoted: bool) -> Result<Text, AllocError>
    ensures { IfOk result (λ text. text ≡ text_of quoted (val_of value.now)) }
{
    let mut text = Text::new(alloc);
    match value {
        Value::Str(string) if !quoted => text.append(string.as_bytes())?,
        _ => append_value(alloc, value, &mut text)?,
    }
    Ok(text)
}

/// Puts the text of a value inside a list or a scope at the end of a text.
#[cycle(print)]
#[tactic(auto, unfolding(crate::specs::Text::inner_text))]
fn append_value(alloc: Global, value: &Value, text: &mut Text) -> Result<(), AllocError>
    ensures { OnOk result (text.new ≡ text.old ++ inner_text (val_of value.now)) }
{
    match value {
        Value::Bool(true) => text.append(b"true"),
        Value::Bool(false) => text.append(b"false"),
        Value::Int(number) => append_number(alloc, *number, text),
        Value::Str(string) => append_quoted(alloc, string, text),
        Value::List(items) => append_items(alloc, items, text),
        Value::Scope(entries) => append_entries(alloc, entries, text),
    }
}

/// Puts an integer in decimal at the end of a text.
fn append_number(alloc: Global, number: i64, text: &mut Text) -> Result<(), AllocError>
    ensures { OnOk result (text.new ≡ text.old ++ signed_decimal number) }
{
    let digits = decimal(alloc, number)?;
    text.append(digits.as_slice())
}

/// Puts a string between quotes at the end of a text.
fn append_quoted(alloc: Global, string: &Text, text: &mut Text) -> Result<(), AllocError>
    ensures { OnOk result (text.new ≡ text.old ++ in_quotes string.now) }
{
    let quotes = quote(alloc, string.as_bytes())?;
    text.append(quotes.as_slice())
}

/// Puts `, ` at the end of a text, but for the item number 0.
fn append_comma(index: usize, text: &mut Text) -> Result<(), AllocError>
    ensures { OnOk result
        (text.new ≡ text.old ++ (if index == 0 then [] else codes ", ")) }
{
    if index == 0 {
        return Ok(());
    }
    text.append(b", ")
}

/// Puts the texts of the items, with `, ` between them and in brackets, at the end of a text.
#[cycle(print)]
fn append_items(alloc: Global, items: &Items, text: &mut Text) -> Result<(), AllocError>
    ensures { OnOk result
        (text.new ≡ text.old ++ (codes "[" ++ items_text (vals_of items.now) ++ codes "]")) }
{
    text.append(b"[")?;
    let values = items.as_slice();
    for index in 0..values.len() {
        append_comma(index, text)?;
        append_value(alloc, &values[index], text)?;
    }
    text.append(b"]")
}

/// Puts a line for each entry, in braces, at the end of a text.
#[cycle(print)]
fn append_entries(alloc: Global, entries: &Entries, text: &mut Text) -> Result<(), AllocError>
    ensures { OnOk result
        (text.new ≡ text.old ++ (codes "{\n" ++ entries_text (binds_of entries.now) ++ codes "}")) }
{
    text.append(b"{\n")?;
    for entry in entries.as_slice() {
        text.append(b"  ")?;
        text.append(entry.name.as_bytes())?;
        text.append(b" = ")?;
        append_value(alloc, &entry.value, text)?;
        text.append(b"\n")?;
    }
    text.append(b"}")
}
