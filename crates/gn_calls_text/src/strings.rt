// `string_join`, `string_replace` and `string_split`.

ghost use Rattle.std.specs.Prelude.{◌≡◌, ◌++◌, [], ◌∷◌, true, pos, map, OnOk, IfErr};
ghost use Rattle.std.specs.List.{filter, flat_map};
ghost use Rattle.gn_values.specs.Limits.{text_fits, list_fits};
ghost use Rattle.gn_values.specs.Val.{vstr, vlist, vals_of};
ghost use Rattle.gn_values.specs.View.{val_of};
ghost use Rattle.gn_calls_text.specs.Answers.{text_answer, list_answer};
ghost use Rattle.gn_calls_text.specs.Calls.{text_list, join_answer, replaced_answer, replace_answer, split_answer, string_split_answer};
ghost use Rattle.gn_calls_text.specs.Pieces.{cut, joined, replaced, is_white_space, is_filled, words};
ghost use Rattle.gn_calls_text.specs.Views.{Settles, IsOver, bytes_in};

use crate::arguments::{bad_arguments, bytes_of, integer_of, text_of, texts_of};
use crate::error::CallError;
use crate::growing::{append, append_both, push_text};
use gn_paths::Text;
use gn_values::{Items, Value};
use memchr::memmem::Finder;
use std::alloc::Global;

/// Puts each text, behind a separator, at the end of a text.
fn append_further(text: &mut Text, separator: &[u8], texts: &[Value]) -> Result<(), CallError>
    requires { text_fits text.old ≡ true }
    ensures { Settles (λ u. vstr text.new) result
        (text_answer (text.old ++ flat_map (λ t. separator.now ++ t) (map bytes_in texts.now))) }
{
    for further in texts {
        append_both(text, separator, bytes_of(further))?;
    }
    Ok(())
}

/// Puts the texts, with the separator between two, into an empty text.
fn join_into(text: &mut Text, separator: &[u8], texts: &[Value]) -> Result<(), CallError>
    requires { text.old ≡ [] }
    ensures { Settles (λ u. vstr text.new) result
        (text_answer (joined separator.now (map bytes_in texts.now))) }
{
    let [first, further @ ..] = texts else {
        return Ok(());
    };
    append(text, bytes_of(first))?;
    append_further(text, separator, further)
}

/// What `string_join` answers to its values.
pub(crate) fn string_join(alloc: Global, args: &[Value]) -> Result<Value, CallError>
    ensures { Settles val_of result (join_answer (map val_of args.now)) }
{
    let [separator, strings] = args else {
        return Err(bad_arguments());
    };
    let separator = text_of(separator, 0)?;
    let texts = texts_of(strings, 1)?;
    let mut text = Text::new(alloc);
    join_into(&mut text, separator, texts)?;
    Ok(Value::Str(text))
}

/// Puts a text at the end of another, with `new` in place of what is looked for, at `count` places at most.
fn replace_into(
    text: &mut Text,
    old: &Finder<'_>,
    new: &[u8],
    count: usize,
    source: &[u8],
) -> Result<(), CallError>
    ensures { Settles (λ u. vstr text.new) result
        (text_answer (text.old ++ replaced count old.now new.now source.now)) }
{
    let old_len = old.needle().len();
    let mut rest = source;
    let mut left = count;
    while left > 0 {
        left -= 1;
        let Some(place) = old.find(rest) else {
            return append(text, rest);
        };
        let (piece, behind) = rest.split_at(place);
        append_both(text, piece, new)?;
        rest = &behind[old_len..];
    }
    append(text, rest)
}

/// A text with `new` in place of `old`, at `count` places at most.
fn replace(
    alloc: Global,
    text: &[u8],
    old: &[u8],
    new: &[u8],
    count: usize,
) -> Result<Value, CallError>
    ensures { Settles val_of result (replaced_answer text.now old.now new.now (pos count)) }
{
    if old.is_empty() {
        return Err(bad_arguments());
    }
    let mut replaced = Text::new(alloc);
    replace_into(&mut replaced, &Finder::new(old), new, count, text)?;
    Ok(Value::Str(replaced))
}

/// A text with `new` in place of `old`, at `max` places at most.
fn replace_some(
    alloc: Global,
    text: &[u8],
    old: &[u8],
    new: &[u8],
    max: i64,
) -> Result<Value, CallError>
    ensures { Settles val_of result (replaced_answer text.now old.now new.now max) }
{
    if max < 0 {
        return Err(bad_arguments());
    }
    replace(alloc, text, old, new, max as usize)
}

/// `string_replace` at all places.
fn replace_three(alloc: Global, text: &Value, old: &Value, new: &Value) -> Result<Value, CallError>
    ensures { Settles val_of result
        (replace_answer (val_of text.now ∷ val_of old.now ∷ val_of new.now ∷ [])) }
{
    let text = text_of(text, 0)?;
    let old = text_of(old, 1)?;
    let new = text_of(new, 2)?;
    replace(alloc, text, old, new, text.len())
}

/// `string_replace` at some places at most.
fn replace_four(
    alloc: Global,
    text: &Value,
    old: &Value,
    new: &Value,
    max: &Value,
) -> Result<Value, CallError>
    ensures { Settles val_of result
        (replace_answer (val_of text.now ∷ val_of old.now ∷ val_of new.now ∷ val_of max.now ∷ [])) }
{
    let text = text_of(text, 0)?;
    let old = text_of(old, 1)?;
    let new = text_of(new, 2)?;
    let max = integer_of(max, 3)?;
    replace_some(alloc, text, old, new, max)
}

/// What `string_replace` answers to its values.
pub(crate) fn string_replace(alloc: Global, args: &[Value]) -> Result<Value, CallError>
    ensures { Settles val_of result (replace_answer (map val_of args.now)) }
{
    match args {
        [text, old, new] => replace_three(alloc, text, old, new),
        [text, old, new, max] => replace_four(alloc, text, old, new, max),
        _ => Err(bad_arguments()),
    }
}

/// Puts the pieces of a text that is cut at what is looked for, at `count` places at most, at the end of a list.
fn cut_into(
    alloc: Global,
    pieces: &mut Items,
    separator: &Finder<'_>,
    count: usize,
    source: &[u8],
) -> Result<(), CallError>
    ensures { Settles (λ u. vlist (vals_of pieces.new)) result
        (list_answer (pieces.old ++ text_list (cut count separator.now source.now))) }
{
    let len = separator.needle().len();
    let mut rest = source;
    let mut left = count;
    while left > 0 {
        left -= 1;
        let Some(place) = separator.find(rest) else {
            return push_text(alloc, pieces, rest);
        };
        let (piece, behind) = rest.split_at(place);
        push_text(alloc, pieces, piece)?;
        rest = &behind[len..];
    }
    push_text(alloc, pieces, rest)
}

/// The pieces of a text between separators.
fn split(alloc: Global, text: &[u8], separator: &[u8]) -> Result<Value, CallError>
    ensures { Settles val_of result (split_answer text.now separator.now) }
{
    if separator.is_empty() {
        return Err(bad_arguments());
    }
    let mut pieces = Items::new(alloc);
    cut_into(
        alloc,
        &mut pieces,
        &Finder::new(separator),
        text.len(),
        text,
    )?;
    Ok(Value::List(pieces))
}

/// Whether a byte is white space.
pub(crate) fn is_white_space(byte: u8) -> bool
    ensures { result ≡ is_white_space byte }
{
    byte == b' ' || byte == b'\t' || byte == b'\r' || byte == b'\n'
}

/// Puts a run of bytes, if it has some, at the end of a list.
pub(crate) fn push_run(alloc: Global, runs: &mut Items, run: &[u8]) -> Result<(), CallError>
    requires { list_fits runs.old ≡ true }
    ensures ok { OnOk result
        (runs.new ≡ runs.old ++ text_list (filter is_filled (run.now ∷ []))) }
    ensures fits { OnOk result (list_fits runs.new ≡ true) }
    ensures err { IfErr result
        (λ e. IsOver e (list_fits (runs.old ++ text_list (filter is_filled (run.now ∷ []))))) }
{
    if run.is_empty() {
        return Ok(());
    }
    push_text(alloc, runs, run)
}

/// Puts the runs of bytes that aren't white space into an empty list.
fn words_into(alloc: Global, runs: &mut Items, text: &[u8]) -> Result<(), CallError>
    requires { runs.old ≡ [] }
    ensures { Settles (λ u. vlist (vals_of runs.new)) result
        (list_answer (text_list (words text.now))) }
{
    let mut start = 0;
    for (place, byte) in text.iter().enumerate() {
        if is_white_space(*byte) {
            push_run(alloc, runs, &text[start..place])?;
            start = place + 1;
        }
    }
    push_run(alloc, runs, &text[start..])
}

/// The runs of bytes of a text that aren't white space.
fn words(alloc: Global, text: &[u8]) -> Result<Value, CallError>
    ensures { Settles val_of result (list_answer (text_list (words text.now))) }
{
    let mut runs = Items::new(alloc);
    words_into(alloc, &mut runs, text)?;
    Ok(Value::List(runs))
}

/// What `string_split` answers to its values.
pub(crate) fn string_split(alloc: Global, args: &[Value]) -> Result<Value, CallError>
    ensures { Settles val_of result (string_split_answer (map val_of args.now)) }
{
    match args {
        [text] => words(alloc, text_of(text, 0)?),
        [text, separator] => split(alloc, text_of(text, 0)?, text_of(separator, 1)?),
        _ => Err(bad_arguments()),
    }
}
