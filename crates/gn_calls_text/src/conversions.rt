// What `read_file` makes of the content of a file.

ghost use Rattle.std.specs.Prelude.{◌≡◌, ◌≤◌, ◌++◌, [], ◌∷◌, true, length, OnOk, IfErr};
ghost use Rattle.std.specs.List.{filter, prefix_len, suffix_len};
ghost use Rattle.gn_values.specs.Limits.{list_fits};
ghost use Rattle.gn_values.specs.Val.{vstr, vlist, vals_of};
ghost use Rattle.gn_values.specs.View.{val_of};
ghost use Rattle.gn_calls_text.specs.Answers.{text_answer, list_answer};
ghost use Rattle.gn_calls_text.specs.Calls.{text_list};
ghost use Rattle.gn_calls_text.specs.Conversions.{conversion_of, is_evaluated, trimmed_behind, trimmed, lines_in, lines_of, converted};
ghost use Rattle.gn_calls_text.specs.Pieces.{is_white_space, is_filled, cut};
ghost use Rattle.gn_calls_text.specs.Views.{Settles, IsOver};

use crate::arguments::too_long;
use crate::error::CallError;
use crate::growing::push_text;
use crate::strings::{is_white_space, push_run};
use gn_paths::Text;
use gn_values::{Items, MAX_BYTES, Value};
use memchr::memmem::Finder;
use std::alloc::Global;

/// The form in which the content of a file is a value.
#[derive(Clone, Copy, Debug, PartialEq, Eq)]
pub enum Form {
    /// `string`: a string of all bytes.
    Whole,
    /// `trim string`: the same without the white space at both ends.
    Trimmed,
    /// `list lines`: a list of the lines, each without white space at both ends. A last one that is empty then is none.
    Lines,
    /// `trim list lines`: the lines of the content without the white space at both its ends.
    TrimmedLines,
}

/// What `read_file` makes of the content of a file.
#[derive(Clone, Copy, Debug, PartialEq, Eq)]
pub enum Conversion {
    /// The empty text: nothing.
    Nothing,
    /// A value in this form.
    Of(Form),
    /// `value` and `trim value`: what the expression comes to that it is. White space at its ends is no part of an expression.
    Evaluated,
}

impl Conversion {
    /// The conversion of this name. It takes no memory.
    #[tactic(auto, unfolding(crate::specs::Conversions::conversion_of))]
    pub fn named(name: &[u8]) -> Option<Conversion>
        ensures { result ≡ conversion_of name.now }
    {
        if name == b"".as_slice() {
            Some(Conversion::Nothing)
        } else if name == b"string".as_slice() {
            Some(Conversion::Of(Form::Whole))
        } else if name == b"list lines".as_slice() {
            Some(Conversion::Of(Form::Lines))
        } else if name == b"trim string".as_slice() {
            Some(Conversion::Of(Form::Trimmed))
        } else if name == b"trim list lines".as_slice() {
            Some(Conversion::Of(Form::TrimmedLines))
        } else if name == b"value".as_slice() {
            Some(Conversion::Evaluated)
        } else if name == b"trim value".as_slice() {
            Some(Conversion::Evaluated)
        } else {
            None
        }
    }

    /// Whether the content is evaluated. It takes no memory.
    pub fn is_evaluated(self) -> bool
        ensures { result ≡ is_evaluated self }
    {
        match self {
            Conversion::Nothing | Conversion::Of(_) => false,
            Conversion::Evaluated => true,
        }
    }
}

/// How much white space a text begins with.
fn space_before(text: &[u8]) -> usize
    ensures value { result ≡ prefix_len is_white_space text.now }
    ensures within { result ≤ length text.now }
{
    text.iter()
        .take_while(|byte| is_white_space(**byte))
        .count()
}

/// How much white space a text ends with.
fn space_behind(text: &[u8]) -> usize
    ensures value { result ≡ suffix_len is_white_space text.now }
    ensures within { result ≤ length text.now }
{
    text.iter()
        .rev()
        .take_while(|byte| is_white_space(**byte))
        .count()
}

/// A text without the white space at its end.
fn trimmed_behind(text: &[u8]) -> &[u8]
    ensures { result.now ≡ trimmed_behind text.now }
{
    &text[..text.len() - space_behind(text)]
}

/// A text without the white space at both its ends.
fn trimmed(text: &[u8]) -> &[u8]
    ensures { result.now ≡ trimmed text.now }
{
    trimmed_behind(&text[space_before(text)..])
}

/// These bytes as a string, where they are within the limit.
fn string(alloc: Global, bytes: &[u8]) -> Result<Value, CallError>
    ensures { Settles val_of result (text_answer bytes.now) }
{
    if bytes.len() > MAX_BYTES {
        return Err(too_long());
    }
    Ok(Value::Str(Text::from_bytes(alloc, bytes)?))
}

/// Puts a line without white space at both its ends at the end of a list.
fn push_line(alloc: Global, lines: &mut Items, line: &[u8]) -> Result<(), CallError>
    ensures ok { OnOk result (lines.new ≡ lines.old ++ vstr (trimmed line.now) ∷ []) }
    ensures fits { OnOk result (list_fits lines.new ≡ true) }
    ensures err { IfErr result
        (λ e. IsOver e (list_fits (lines.old ++ vstr (trimmed line.now) ∷ []))) }
{
    push_text(alloc, lines, trimmed(line))
}

/// The same of the last line, unless it is empty then.
fn push_last_line(alloc: Global, lines: &mut Items, line: &[u8]) -> Result<(), CallError>
    requires { list_fits lines.old ≡ true }
    ensures ok { OnOk result
        (lines.new ≡ lines.old ++ text_list (filter is_filled (trimmed line.now ∷ []))) }
    ensures fits { OnOk result (list_fits lines.new ≡ true) }
    ensures err { IfErr result
        (λ e. IsOver e (list_fits (lines.old ++ text_list (filter is_filled (trimmed line.now ∷ []))))) }
{
    push_run(alloc, lines, trimmed(line))
}

/// Puts the lines of a text, which is cut at what is looked for at `count` places at most, at the end of a list.
fn lines_into(
    alloc: Global,
    lines: &mut Items,
    newline: &Finder<'_>,
    count: usize,
    source: &[u8],
) -> Result<(), CallError>
    requires { list_fits lines.old ≡ true }
    ensures { Settles (λ u. vlist (vals_of lines.new)) result
        (list_answer (lines.old ++ text_list (lines_in (cut count newline.now source.now)))) }
{
    let len = newline.needle().len();
    let mut rest = source;
    let mut left = count;
    while left > 0 {
        left -= 1;
        let Some(place) = newline.find(rest) else {
            return push_last_line(alloc, lines, rest);
        };
        let (line, behind) = rest.split_at(place);
        push_line(alloc, lines, line)?;
        rest = &behind[len..];
    }
    push_last_line(alloc, lines, rest)
}

/// The lines of a text as a list.
fn list_of_lines(alloc: Global, text: &[u8]) -> Result<Value, CallError>
    ensures { Settles val_of result (list_answer (text_list (lines_of text.now))) }
{
    let mut lines = Items::new(alloc);
    lines_into(
        alloc,
        &mut lines,
        &Finder::new(b"\n".as_slice()),
        text.len(),
        text,
    )?;
    Ok(Value::List(lines))
}

/// The value that a content is in this form. A value above the limits of values is `TooLong` at the name of the call.
#[tactic(auto, unfolding(crate::specs::Conversions::converted))]
pub fn convert(alloc: Global, form: Form, content: &[u8]) -> Result<Value, CallError>
    ensures { Settles val_of result (converted form content.now) }
{
    match form {
        Form::Whole => string(alloc, content),
        Form::Trimmed => string(alloc, trimmed(content)),
        Form::Lines => list_of_lines(alloc, content),
        Form::TrimmedLines => list_of_lines(alloc, trimmed(content)),
    }
}
