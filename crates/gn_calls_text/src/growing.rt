// Texts and lists that grow within the limits.

ghost use Rattle.std.specs.Prelude.{◌≡◌, ◌++◌, [], ◌∷◌, OnOk, IfErr, true};
ghost use Rattle.gn_values.specs.Limits.{list_fits, text_fits};
ghost use Rattle.gn_values.specs.Val.{vstr};
ghost use Rattle.gn_values.specs.View.{val_of};
ghost use Rattle.gn_calls_text.specs.Views.{IsOver};

use crate::arguments::too_long;
use crate::error::CallError;
use gn_paths::Text;
use gn_values::{Items, Value, ValueError, append_text};
use std::alloc::{AllocError, Global};

/// Puts bytes at the end of a text, within the limit of strings.
pub(crate) fn append(text: &mut Text, bytes: &[u8]) -> Result<(), CallError>
    ensures ok { OnOk result (text.new ≡ text.old ++ bytes.now) }
    ensures fits { OnOk result (text_fits text.new ≡ true) }
    ensures err { IfErr result (λ e. IsOver e (text_fits (text.old ++ bytes.now))) }
{
    match append_text(text, bytes) {
        Ok(()) => Ok(()),
        Err(ValueError::Memory) => Err(CallError::Memory),
        Err(_) => Err(too_long()),
    }
}

/// Puts bytes and then further bytes at the end of a text, within the limit of strings.
pub(crate) fn append_both(text: &mut Text, bytes: &[u8], further: &[u8]) -> Result<(), CallError>
    ensures ok { OnOk result (text.new ≡ text.old ++ (bytes.now ++ further.now)) }
    ensures fits { OnOk result (text_fits text.new ≡ true) }
    ensures err { IfErr result
        (λ e. IsOver e (text_fits (text.old ++ (bytes.now ++ further.now)))) }
{
    append(text, bytes)?;
    append(text, further)
}

/// Puts a value at the end of a list, within the limits of lists.
pub(crate) fn push(items: &mut Items, value: Value) -> Result<(), CallError>
    ensures ok { OnOk result (items.new ≡ items.old ++ val_of value ∷ []) }
    ensures fits { OnOk result (list_fits items.new ≡ true) }
    ensures err { IfErr result (λ e. IsOver e (list_fits (items.old ++ val_of value ∷ []))) }
{
    match items.push(value) {
        Ok(()) => Ok(()),
        Err(ValueError::Memory) => Err(CallError::Memory),
        Err(_) => Err(too_long()),
    }
}

/// Puts a string of these bytes at the end of a list, within the limits of lists.
pub(crate) fn push_text(alloc: Global, items: &mut Items, bytes: &[u8]) -> Result<(), CallError>
    ensures ok { OnOk result (items.new ≡ items.old ++ vstr bytes.now ∷ []) }
    ensures fits { OnOk result (list_fits items.new ≡ true) }
    ensures err { IfErr result (λ e. IsOver e (list_fits (items.old ++ vstr bytes.now ∷ []))) }
{
    let text = Text::from_bytes(alloc, bytes)?;
    push(items, Value::Str(text))
}

/// Puts a value at the end of a list that has room for it.
pub fn push_within(items: &mut Items, value: Value) -> Result<(), AllocError>
    requires { list_fits (items.old ++ val_of value ∷ []) ≡ true }
    ensures { OnOk result (items.new ≡ items.old ++ val_of value ∷ []) }
{
    match items.push(value) {
        Ok(()) => Ok(()),
        Err(ValueError::Memory) => Err(AllocError),
        Err(_) => unreachable!(),
    }
}
