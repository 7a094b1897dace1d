// The arguments of a call and their types.

ghost use Rattle.std.specs.Prelude.{◌≡◌, ◌≤◌, IfOk, IfErr, Some, None, length, map};
ghost use Rattle.std.specs.List.{list_all};
ghost use Rattle.gn_values.specs.Limits.{max_items};
ghost use Rattle.gn_values.specs.View.{val_of};
ghost use Rattle.gn_calls_text.specs.Answers.{text_in, integer_in, list_in, texts_in};
ghost use Rattle.gn_calls_text.specs.Views.{is_text, bytes_in};

use crate::error::CallError;
use gn_faults::Code;
use gn_values::{Items, Value};

/// An argument of another type than the call takes.
pub fn wrong_type(argument: u32) -> CallError
    ensures { result ≡ CallError.Refused Code.BadTypes (Some argument) }
{
    CallError::Refused {
        code: Code::BadTypes,
        argument: Some(argument),
    }
}

/// Another number of arguments than the call takes, or a value that it doesn't take.
pub fn bad_arguments() -> CallError
    ensures { result ≡ CallError.Refused Code.BadArguments None }
{
    CallError::Refused {
        code: Code::BadArguments,
        argument: None,
    }
}

/// A value above the limits.
pub fn too_long() -> CallError
    ensures { result ≡ CallError.Refused Code.TooLong None }
{
    CallError::Refused {
        code: Code::TooLong,
        argument: None,
    }
}

/// The bytes of an argument that has to be a string.
pub fn text_of(value: &Value, argument: u32) -> Result<&[u8], CallError>
    ensures ok { IfOk result (λ t. text_in (val_of value.now) ≡ Some t.now) }
    ensures none { IfErr result (λ e. text_in (val_of value.now) ≡ None) }
    ensures err { IfErr result (λ e. e ≡ CallError.Refused Code.BadTypes (Some argument)) }
{
    match value {
        Value::Str(text) => Ok(text.as_bytes()),
        _ => Err(wrong_type(argument)),
    }
}

/// An argument that has to be an integer.
pub(crate) fn integer_of(value: &Value, argument: u32) -> Result<i64, CallError>
    ensures ok { IfOk result (λ n. integer_in (val_of value.now) ≡ Some n) }
    ensures none { IfErr result (λ e. integer_in (val_of value.now) ≡ None) }
    ensures err { IfErr result (λ e. e ≡ CallError.Refused Code.BadTypes (Some argument)) }
{
    match value {
        Value::Int(number) => Ok(*number),
        _ => Err(wrong_type(argument)),
    }
}

/// The items of an argument that has to be a list.
pub(crate) fn list_of(value: &Value, argument: u32) -> Result<&Items, CallError>
    ensures ok { IfOk result (λ vs. list_in (val_of value.now) ≡ Some vs.now) }
    ensures none { IfErr result (λ e. list_in (val_of value.now) ≡ None) }
    ensures err { IfErr result (λ e. e ≡ CallError.Refused Code.BadTypes (Some argument)) }
{
    match value {
        Value::List(items) => Ok(items),
        _ => Err(wrong_type(argument)),
    }
}

fn is_text(value: &Value) -> bool
    ensures { result ≡ is_text value.now }
{
    match value {
        Value::Str(_) => true,
        _ => false,
    }
}

fn are_texts(values: &[Value]) -> bool
    ensures { result ≡ list_all is_text values.now }
{
    values.iter().all(|value| is_text(value))
}

/// The bytes of a string; another value has none.
pub fn bytes_of(value: &Value) -> &[u8]
    ensures { result.now ≡ bytes_in value.now }
{
    match value {
        Value::Str(text) => text.as_bytes(),
        _ => b"",
    }
}

/// The items of an argument that has to be a list of strings.
#[tactic(auto, unfolding(crate::specs::Answers::texts_in))]
pub fn texts_of(value: &Value, argument: u32) -> Result<&[Value], CallError>
    ensures ok { IfOk result
        (λ ts. texts_in (val_of value.now) ≡ Some (map bytes_in ts.now)) }
    ensures short { IfOk result (λ ts. length ts.now ≤ max_items) }
    ensures none { IfErr result (λ e. texts_in (val_of value.now) ≡ None) }
    ensures err { IfErr result (λ e. e ≡ CallError.Refused Code.BadTypes (Some argument)) }
{
    let Value::List(items) = value else {
        return Err(wrong_type(argument));
    };
    let texts = items.as_slice();
    if are_texts(texts) {
        Ok(texts)
    } else {
        Err(wrong_type(argument))
    }
}
