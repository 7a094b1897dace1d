// Texts as answers.

ghost use Rattle.std.specs.Prelude.{◌≡◌, ◌≤◌, ◌++◌, [], ◌∷◌, length, IfOk, OnOk};
ghost use Rattle.std.specs.List.{list_all};
ghost use Rattle.gn_values.specs.Limits.{max_items, text_fits};
ghost use Rattle.gn_values.specs.Val.{vstr};
ghost use Rattle.gn_values.specs.View.{val_of};
ghost use Rattle.gn_calls_text.specs.Answers.{text_answer};
ghost use Rattle.gn_calls_text.specs.Calls.{text_list};
ghost use Rattle.gn_calls_text.specs.Views.{Settles};
ghost use Rattle.gn_calls_path.specs.Each.{texts_answer};

use gn_calls_text::{CallError, push_within, too_long};
use gn_paths::Text;
use gn_values::{Items, MAX_BYTES, MAX_ITEMS, Value};
use std::alloc::{AllocError, Global};

/// A text as a string, where it is within the limit.
pub(crate) fn string(text: Text) -> Result<Value, CallError>
    ensures { Settles val_of result (text_answer text) }
{
    if text.len() > MAX_BYTES {
        return Err(too_long());
    }
    Ok(Value::Str(text))
}

fn all_fit(texts: &[Text]) -> bool
    ensures { result ≡ list_all text_fits texts.now }
{
    for text in texts {
        if text.len() > MAX_BYTES {
            return false;
        }
    }
    true
}

/// Puts copies of these texts into an empty list.
fn copy_into(alloc: Global, items: &mut Items, texts: &[Text]) -> Result<(), AllocError>
    requires none { items.old ≡ [] }
    requires few { length texts.now ≤ max_items }
    ensures { OnOk result (items.new ≡ text_list texts.now) }
{
    for text in texts {
        push_within(items, Value::Str(text.copy(alloc)?))?;
    }
    Ok(())
}

/// Texts as a list of strings, where each and all of them are within the limits.
pub fn strings(alloc: Global, texts: &[Text]) -> Result<Value, CallError>
    ensures { Settles val_of result (texts_answer texts.now) }
{
    if texts.len() > MAX_ITEMS || !all_fit(texts) {
        return Err(too_long());
    }
    let mut items = Items::new(alloc);
    copy_into(alloc, &mut items, texts)?;
    Ok(Value::List(items))
}
