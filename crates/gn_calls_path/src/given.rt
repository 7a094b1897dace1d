// An argument that is a string or a list of strings.

ghost use Rattle.std.specs.Prelude.{◌≡◌, Some, None, IfOk, IfErr, map};
ghost use Rattle.gn_values.specs.View.{val_of};
ghost use Rattle.gn_calls_text.specs.Views.{bytes_in};
ghost use Rattle.gn_calls_path.specs.Each.{one_or_list, texts_of};
ghost use Rattle.gn_calls_path.specs.Views.{given_of};

use gn_calls_text::{CallError, texts_of, wrong_type};
use gn_faults::Code;
use gn_values::Value;

/// A string or a list of strings.
#[derive(Clone, Copy)]
pub(crate) enum OneOrList<'a> {
    /// A string.
    One(&'a Value),
    /// The strings of a list.
    Listed(&'a [Value]),
}

impl<'a> OneOrList<'a> {
    /// The strings.
    pub(crate) fn as_slice(&self) -> &'a [Value]
        ensures { map bytes_in result.now ≡ texts_of (given_of self.now) }
    {
        match self {
            OneOrList::One(value) => std::slice::from_ref(*value),
            OneOrList::Listed(values) => *values,
        }
    }
}

/// An argument that has to be a string or a list of strings.
pub(crate) fn one_or_list(value: &Value, argument: u32) -> Result<OneOrList<'_>, CallError>
    ensures ok { IfOk result (λ g. one_or_list (val_of value.now) ≡ Some (given_of g)) }
    ensures none { IfErr result (λ e. one_or_list (val_of value.now) ≡ None) }
    ensures err { IfErr result (λ e. e ≡ CallError.Refused Code.BadTypes (Some argument)) }
{
    match value {
        Value::Str(_) => Ok(OneOrList::One(value)),
        Value::List(_) => Ok(OneOrList::Listed(texts_of(value, argument)?)),
        _ => Err(wrong_type(argument)),
    }
}
