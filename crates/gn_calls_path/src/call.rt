// The calls by their names.

ghost use Rattle.std.specs.Prelude.{map};
ghost use Rattle.gn_values.specs.View.{val_of};
ghost use Rattle.gn_calls_text.specs.Views.{Settles};
ghost use Rattle.gn_calls_path.specs.Calls.{path_call};

use crate::labels::{get_label_info, label_matches};
use crate::making::get_path_info;
use crate::place::Where;
use crate::rebasing::rebase_path;
use crate::templates::process_file_template;
use gn_calls_text::CallError;
use gn_values::Value;
use std::alloc::Global;

/// A built-in call on paths and labels.
#[derive(Clone, Copy, Debug, PartialEq, Eq)]
pub enum PathCall {
    /// `get_label_info(label, what)`: a part of a label, or a directory of it.
    GetLabelInfo,
    /// `get_path_info(path, what)`: a part of a path's text, or a directory of it, or the path; a list gives a list.
    GetPathInfo,
    /// `label_matches(label, patterns)`: whether one of the patterns matches the label.
    LabelMatches,
    /// `process_file_template(sources, template)`: each source in each template.
    ProcessFileTemplate,
    /// `rebase_path(path [, new_base [, current_base]])`: a path of `current_base` as it is shown from `new_base`, or the
    /// system's path; a list gives a list.
    RebasePath,
}

/// What a call of this name answers to the values of its arguments where it stands: a value, or the first of its faults.
/// Another number of arguments than the call takes is `BadArguments` at its name. Then come arguments of a wrong type,
/// from left to right, each `BadTypes` at the argument, also for a list with an item of a wrong type; then something
/// asked that the call doesn't tell, `BadArguments` at its name; then faults of paths, labels, patterns and
/// substitutions, each at its argument, also for an item of a list; then a value above the limits of values, `TooLong`
/// at its name.
#[tactic(auto, unfolding(crate::specs::Calls::path_call))]
pub fn call_path(
    alloc: Global,
    name: PathCall,
    args: &[Value],
    at: &Where,
) -> Result<Value, CallError>
    ensures { Settles val_of result (path_call name at.now (map val_of args.now)) }
{
    match name {
        PathCall::GetLabelInfo => get_label_info(alloc, args, at),
        PathCall::GetPathInfo => get_path_info(alloc, args, at),
        PathCall::LabelMatches => label_matches(alloc, args, at),
        PathCall::ProcessFileTemplate => process_file_template(alloc, args, at),
        PathCall::RebasePath => rebase_path(alloc, args, at),
    }
}
