// The strings of a value, and what lists of them are read as.

ghost use Rattle.std.specs.Prelude.{◌≡◌, Ok, Err, IfOk, IfErr, MatchResult, map};
ghost use Rattle.std.specs.List.{list_all};
ghost use Rattle.gn_paths.specs.Normal.{is_path_byte};
ghost use Rattle.gn_values.specs.View.{val_of};
ghost use Rattle.gn_define.specs.Faults.{IsReadFault};
ghost use Rattle.gn_define.specs.Held.{held_of};
ghost use Rattle.gn_define.specs.Reading.{bytes_of, is_plain};
ghost use Rattle.gn_define.specs.Checking.{plain, one_string, many_strings, one_or_many_strings, is_empty, are_empty, texts_in, paths_in, labels_in, patterns_in, substs_in};

use crate::fault::ReadError;
use crate::field::Field;
use crate::files::subst_as;
use crate::forms::{SubstForm, TextForm};
use crate::place::Where;
use crate::reading::{label_in, path_in, pattern_in, text_in};
use gn_faults::Code;
use gn_paths::{Path, is_path_byte};
use gn_values::Value;
use std::alloc::Global;
use std::slice;

fn bytes_of(value: &Value) -> &[u8]
    ensures { result.now ≡ bytes_of (val_of value.now) }
{
    match value {
        Value::Str(text) => text.as_bytes(),
        _ => b"",
    }
}

fn has_path_bytes(text: &[u8]) -> bool
    ensures { result ≡ list_all is_path_byte text.now }
{
    text.iter().all(|byte| is_path_byte(*byte))
}

// Whether a value is a string without a newline and a NUL.
fn is_plain(value: &Value) -> bool
    ensures { result ≡ is_plain (val_of value.now) }
{
    match value {
        Value::Str(text) => has_path_bytes(text.as_bytes()),
        _ => false,
    }
}

fn are_plain(values: &[Value]) -> bool
    ensures { result ≡ list_all is_plain (map val_of values.now) }
{
    for value in values {
        if !is_plain(value) {
            return false;
        }
    }
    true
}

// Strings, which are judged before what they mean.
fn plain(values: &[Value]) -> Result<&[Value], Code>
    ensures { MatchResult result
        (λ r. plain (map val_of values.now) ≡ Ok (map val_of r.now))
        (λ e. plain (map val_of values.now) ≡ Err e) }
{
    if are_plain(values) {
        Ok(values)
    } else {
        Err(Code::WrongType)
    }
}

/// The string that a value is.
pub(crate) fn one_string(value: &Value) -> Result<&[Value], Code>
    ensures { MatchResult result
        (λ r. one_string (val_of value.now) ≡ Ok (map val_of r.now))
        (λ e. one_string (val_of value.now) ≡ Err e) }
{
    match value {
        Value::Str(_) => plain(slice::from_ref(value)),
        _ => Err(Code::WrongType),
    }
}

/// The strings of a value that is a list.
#[tactic(auto, using(crate::proofs::Lists::items_back))]
pub(crate) fn many_strings(value: &Value) -> Result<&[Value], Code>
    ensures { MatchResult result
        (λ r. many_strings (val_of value.now) ≡ Ok (map val_of r.now))
        (λ e. many_strings (val_of value.now) ≡ Err e) }
{
    match value {
        Value::List(items) => plain(items.as_slice()),
        _ => Err(Code::WrongType),
    }
}

/// The strings of a value that is a string or a list.
#[tactic(auto, using(crate::proofs::Lists::items_back))]
pub(crate) fn one_or_many_strings(value: &Value) -> Result<&[Value], Code>
    ensures { MatchResult result
        (λ r. one_or_many_strings (val_of value.now) ≡ Ok (map val_of r.now))
        (λ e. one_or_many_strings (val_of value.now) ≡ Err e) }
{
    match value {
        Value::List(items) => plain(items.as_slice()),
        Value::Str(_) => plain(slice::from_ref(value)),
        _ => Err(Code::WrongType),
    }
}

fn is_empty(value: &Value) -> bool
    ensures { result ≡ is_empty (val_of value.now) }
{
    match value {
        Value::Str(text) => text.as_bytes().is_empty(),
        _ => false,
    }
}

/// Whether strings are one empty string.
pub(crate) fn are_empty(values: &[Value]) -> bool
    ensures { result ≡ are_empty (map val_of values.now) }
{
    match values {
        [value] => is_empty(value),
        _ => false,
    }
}

/// Strings as texts of a form.
pub(crate) fn texts_in(
    alloc: Global,
    place: &Where,
    form: TextForm,
    values: &[Value],
) -> Result<Field, ReadError>
    ensures ok { IfOk result (λ f. texts_in place.now form (map val_of values.now) ≡ Ok (held_of f)) }
    ensures wrong { IfErr result (λ e. IsReadFault e (texts_in place.now form (map val_of values.now))) }
{
    let mut made = Vec::new(alloc);
    for value in values {
        made.push(text_in(alloc, place, form, bytes_of(value))?)?;
    }
    Ok(Field::Texts(made))
}

/// Strings as paths.
pub(crate) fn paths_in(alloc: Global, place: &Where, values: &[Value]) -> Result<Field, ReadError>
    ensures ok { IfOk result (λ f. paths_in place.now (map val_of values.now) ≡ Ok (held_of f)) }
    ensures wrong { IfErr result (λ e. IsReadFault e (paths_in place.now (map val_of values.now))) }
{
    let mut made: Vec<Path> = Vec::new(alloc);
    for value in values {
        made.push(path_in(alloc, place, bytes_of(value))?)?;
    }
    Ok(Field::Paths(made))
}

/// Strings as labels.
pub(crate) fn labels_in(alloc: Global, place: &Where, values: &[Value]) -> Result<Field, ReadError>
    ensures ok { IfOk result (λ f. labels_in place.now (map val_of values.now) ≡ Ok (held_of f)) }
    ensures wrong { IfErr result (λ e. IsReadFault e (labels_in place.now (map val_of values.now))) }
{
    let mut made = Vec::new(alloc);
    for value in values {
        made.push(label_in(alloc, place, bytes_of(value))?)?;
    }
    Ok(Field::Labels(made))
}

/// Strings as patterns of labels.
pub(crate) fn patterns_in(
    alloc: Global,
    place: &Where,
    values: &[Value],
) -> Result<Field, ReadError>
    ensures ok { IfOk result (λ f. patterns_in place.now (map val_of values.now) ≡ Ok (held_of f)) }
    ensures wrong { IfErr result (λ e. IsReadFault e (patterns_in place.now (map val_of values.now))) }
{
    let mut made = Vec::new(alloc);
    for value in values {
        made.push(pattern_in(alloc, place, bytes_of(value))?)?;
    }
    Ok(Field::Patterns(made))
}

/// Strings as substitution texts of a form, for these sources.
pub(crate) fn substs_in(
    alloc: Global,
    place: &Where,
    form: SubstForm,
    sources: &[Path],
    values: &[Value],
) -> Result<Field, ReadError>
    ensures ok { IfOk result (λ f. substs_in place.now form sources.now (map val_of values.now) ≡ Ok (held_of f)) }
    ensures wrong { IfErr result (λ e. IsReadFault e (substs_in place.now form sources.now (map val_of values.now))) }
{
    let mut made = Vec::new(alloc);
    for value in values {
        made.push(subst_as(alloc, place, form, sources, bytes_of(value))?)?;
    }
    Ok(Field::Substs(made))
}
