// The calls by their names.

ghost use Rattle.std.specs.Prelude.{map};
ghost use Rattle.gn_values.specs.View.{val_of};
ghost use Rattle.gn_calls_text.specs.Calls.{text_call};
ghost use Rattle.gn_calls_text.specs.Views.{Settles};

use crate::error::CallError;
use crate::filters::{Keep, filter};
use crate::lists::split_list;
use crate::strings::{string_join, string_replace, string_split};
use gn_values::Value;
use std::alloc::Global;

/// A built-in call on texts and lists.
#[derive(Clone, Copy, Debug, PartialEq, Eq)]
pub enum TextCall {
    /// `filter_include(list, patterns)`: the strings of the list that match one of the patterns.
    FilterInclude,
    /// `filter_exclude(list, patterns)`: the strings of the list that match none of the patterns.
    FilterExclude,
    /// `split_list(list, count)`: the list in so many lists, the first of which may be one item longer.
    SplitList,
    /// `string_join(separator, strings)`: the strings with the separator between two.
    StringJoin,
    /// `string_replace(text, old, new [, max])`: the text with `new` in place of `old`, from the left, at `max` places at most.
    StringReplace,
    /// `string_split(text [, separator])`: the pieces of the text between separators, or its runs of bytes that aren't
    /// white space.
    StringSplit,
}

/// What a call of this name answers to the values of its arguments: a value, or the first of its faults. Another number
/// of arguments than the call takes is `BadArguments` at its name. Then come arguments of a wrong type, from left to
/// right, each `BadTypes` at the argument, also for a list with an item of a wrong type; then values that the call
/// doesn't take, `BadArguments` at its name; then a value above the limits of values, `TooLong` at its name.
#[tactic(auto, unfolding(crate::specs::Calls::text_call))]
pub fn call_text(alloc: Global, name: TextCall, args: &[Value]) -> Result<Value, CallError>
    ensures { Settles val_of result (text_call name (map val_of args.now)) }
{
    match name {
        TextCall::FilterInclude => filter(alloc, Keep::Matching, args),
        TextCall::FilterExclude => filter(alloc, Keep::Others, args),
        TextCall::SplitList => split_list(alloc, args),
        TextCall::StringJoin => string_join(alloc, args),
        TextCall::StringReplace => string_replace(alloc, args),
        TextCall::StringSplit => string_split(alloc, args),
    }
}
