// What `read_file` makes of the content of a file, and the names of its conversions.

use crate::rows::{calls, field, is_answer, is_shown, values};
use gn_calls_text::{Conversion, Form, bytes_of, convert};
use gn_values::Value;
use std::alloc::{AllocError, Global};
use std::test::Fail;

// The names of the conversions, and texts that name none.
const NAMES: &str = calls! {
    conversion("") => Some(Nothing);
    conversion("string") => Some(Of(Whole));
    conversion("trim string") => Some(Of(Trimmed));
    conversion("list lines") => Some(Of(Lines));
    conversion("trim list lines") => Some(Of(TrimmedLines));
    conversion("value") => Some(Evaluated);
    conversion("trim value") => Some(Evaluated);
    conversion("json") => None;
    conversion("scope") => None;
    conversion("trim json") => None;
    conversion("String") => None;
    conversion("strin") => None;
    conversion("string ") => None;
    conversion(" string") => None;
    conversion("trim") => None;
    conversion("trim ") => None;
    conversion("trim  string") => None;
    conversion("trim trim string") => None;
    conversion("list") => None;
    conversion("list  lines") => None;
    conversion("string␀") => None;
    conversion("␀") => None;
    conversion("␊") => None;
    conversion("ÿ") => None;
    conversion(long(16777216)) => None;
};

/// Contents and what they are in each form, which stands as a call.
pub(crate) const CONTENTS: &str = calls! {
    string("") => "";
    string(" a␊b ␍␊") => " a␊b ␍␊";
    string("␀ÿ") => "␀ÿ";
    trim_string("") => "";
    trim_string(" ␉␍␊") => "";
    trim_string("␉ a ␊b␍␊") => "a ␊b";
    trim_string("␌ a␀ ") => "␌ a␀";
    trim_string("ÿ ") => "ÿ";
    lines("") => [];
    lines("␊") => [""];
    lines("␊␊") => ["", ""];
    lines(" ") => [];
    lines(" ␊") => [""];
    lines("a") => ["a"];
    lines("a␊") => ["a"];
    lines(" a ␍␊␉b c␊␊") => ["a", "b c", ""];
    lines("a␊ ") => ["a"];
    lines("␀␊ÿ␌") => ["␀", "ÿ␌"];
    trim_lines("") => [];
    trim_lines(" ␊␍␉") => [];
    trim_lines("␊␊a ␊␊ b␊␊") => ["a", "", "b"];
    trim_lines("ÿ␊␀") => ["ÿ", "␀"];
};

/// The form that stands as a call of this name.
pub(crate) fn form_named(name: &str) -> Option<Form> {
    match name {
        "string" => Some(Form::Whole),
        "trim_string" => Some(Form::Trimmed),
        "lines" => Some(Form::Lines),
        "trim_lines" => Some(Form::TrimmedLines),
        _ => None,
    }
}

// The bytes of the first of these values.
fn first_bytes(values: &[Value]) -> &[u8] {
    match values {
        [first, ..] => bytes_of(first),
        [] => b"",
    }
}

fn is_named(alloc: Global, row: &str) -> Result<bool, AllocError> {
    let values = values(alloc, field(row, 1))?;
    let named = Conversion::named(first_bytes(values.as_slice()));
    drop(values);
    is_shown(alloc, named, field(row, 2))
}

/// Whether a content is in a form what the row expects.
pub(crate) fn is_converted(alloc: Global, row: &str, form: Form) -> Result<bool, AllocError> {
    let values = values(alloc, field(row, 1))?;
    let answered = convert(alloc, form, first_bytes(values.as_slice()));
    drop(values);
    let is_so = is_answer(alloc, &answered, field(row, 2));
    drop(answered);
    is_so
}

#[test]
fn conversions_have_names(rt: HostRuntime) -> Result<(), Fail> {
    for row in NAMES.split_terminator('\x1e') {
        assert!(rt; is_named(rt.alloc(), row)?, "at {row}");
    }
    Ok(())
}
