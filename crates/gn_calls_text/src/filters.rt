// `filter_include` and `filter_exclude`.

ghost use Rattle.std.specs.Prelude.{◌≡◌, ◌≤◌, ◌++◌, [], ◌∷◌, true, length, map, IfOk, OnOk};
ghost use Rattle.std.specs.List.{filter};
ghost use Rattle.gn_values.specs.Limits.{max_items, list_fits};
ghost use Rattle.gn_values.specs.Val.{vstr};
ghost use Rattle.gn_values.specs.View.{val_of};
ghost use Rattle.gn_calls_text.specs.Calls.{text_list, filter_answer};
ghost use Rattle.gn_calls_text.specs.Kept.{keeps, kept_by};
ghost use Rattle.gn_calls_text.specs.Rows.{part_lists};
ghost use Rattle.gn_calls_text.specs.Views.{Settles, bytes_in};

use crate::arguments::{bad_arguments, bytes_of, texts_of};
use crate::error::CallError;
use crate::growing::push_within;
use crate::patterns::{Part, matches_some, parts_of_all};
use gn_paths::Text;
use gn_values::{Items, Value};
use std::alloc::{AllocError, Global};

/// Which strings a filter keeps.
#[derive(Clone, Copy)]
pub(crate) enum Keep {
    /// Those that match a pattern.
    Matching,
    /// Those that match none.
    Others,
}

fn is_kept(alloc: Global, keep: Keep, lists: &[Vec<Part>], text: &[u8]) -> Result<bool, AllocError>
    ensures { IfOk result (λ k. k ≡ keeps keep (part_lists lists.now) text.now) }
{
    let matches = matches_some(alloc, lists, text)?;
    match keep {
        Keep::Matching => Ok(matches),
        Keep::Others => Ok(!matches),
    }
}

/// Puts a string at the end of a list with room for it, if the filter keeps it.
fn keep_text(
    alloc: Global,
    kept: &mut Items,
    keep: Keep,
    lists: &[Vec<Part>],
    text: &[u8],
) -> Result<(), AllocError>
    requires { list_fits (kept.old ++ vstr text.now ∷ []) ≡ true }
    ensures { OnOk result (kept.new
        ≡ kept.old ++ text_list (filter (keeps keep (part_lists lists.now)) (text.now ∷ []))) }
{
    if is_kept(alloc, keep, lists, text)? {
        push_within(kept, Value::Str(Text::from_bytes(alloc, text)?))?;
    }
    Ok(())
}

/// Puts the strings that the filter keeps into an empty list.
fn keep_texts(
    alloc: Global,
    kept: &mut Items,
    keep: Keep,
    lists: &[Vec<Part>],
    texts: &[Value],
) -> Result<(), AllocError>
    requires none { kept.old ≡ [] }
    requires short { length texts.now ≤ max_items }
    ensures { OnOk result (kept.new
        ≡ text_list (filter (keeps keep (part_lists lists.now)) (map bytes_in texts.now))) }
{
    for text in texts {
        keep_text(alloc, kept, keep, lists, bytes_of(text))?;
    }
    Ok(())
}

/// The strings that the filter keeps beside these patterns.
fn filtered(
    alloc: Global,
    keep: Keep,
    texts: &[Value],
    patterns: &[Value],
) -> Result<Items, AllocError>
    requires { length texts.now ≤ max_items }
    ensures { IfOk result (λ items. items
        ≡ text_list (filter (kept_by keep (map bytes_in patterns.now)) (map bytes_in texts.now))) }
{
    let lists = parts_of_all(alloc, patterns)?;
    let mut kept = Items::new(alloc);
    keep_texts(alloc, &mut kept, keep, lists.as_slice(), texts)?;
    Ok(kept)
}

/// What a filter answers to its values.
pub(crate) fn filter(alloc: Global, keep: Keep, args: &[Value]) -> Result<Value, CallError>
    ensures { Settles val_of result (filter_answer (kept_by keep) (map val_of args.now)) }
{
    let [strings, patterns] = args else {
        return Err(bad_arguments());
    };
    let texts = texts_of(strings, 0)?;
    let patterns = texts_of(patterns, 1)?;
    Ok(Value::List(filtered(alloc, keep, texts, patterns)?))
}
