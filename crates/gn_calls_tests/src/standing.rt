// Where the tests' calls on paths and labels stand, and whether one answers as it should. A call at `root` stands in the root
// directory under the default toolchain `//t:t`, one at `inner` in `//a` under the toolchain `//t:u`, one at `colon` under that
// one in the directory `//..:a`, and one at `early` in `//a` while no toolchain is known.

use crate::rows::{field, is_answer, values};
use gn_calls_path::{PathCall, Where, call_path};
use gn_paths::{Path, PathError, Text, resolve};
use std::alloc::Global;

/// What a text means at the root.
pub(crate) fn at_root(alloc: Global, text: &str) -> Result<Path, PathError> {
    let root = Path::root(alloc)?;
    resolve(alloc, &root, text.as_bytes())
}

fn standing(
    alloc: Global,
    directory: &str,
    toolchain: &str,
    default_toolchain: &str,
) -> Result<Where, PathError> {
    Ok(Where {
        directory: at_root(alloc, directory)?,
        toolchain: Text::from_bytes(alloc, toolchain.as_bytes())?,
        default_toolchain: Text::from_bytes(alloc, default_toolchain.as_bytes())?,
        build: at_root(alloc, "//out")?,
        root: Text::from_bytes(alloc, b"/src")?,
    })
}

fn place_named(alloc: Global, name: &str) -> Result<Where, PathError> {
    match name {
        "root" => standing(alloc, "//", "//t:t", "//t:t"),
        "inner" => standing(alloc, "//a", "//t:u", "//t:t"),
        "colon" => standing(alloc, "//..:a", "//t:u", "//t:t"),
        _ => standing(alloc, "//a", "", ""),
    }
}

fn call_named(name: &str) -> Option<PathCall> {
    match name {
        "get_label_info" => Some(PathCall::GetLabelInfo),
        "get_path_info" => Some(PathCall::GetPathInfo),
        "label_matches" => Some(PathCall::LabelMatches),
        "process_file_template" => Some(PathCall::ProcessFileTemplate),
        "rebase_path" => Some(PathCall::RebasePath),
        _ => None,
    }
}

fn answers(alloc: Global, row: &str, call: PathCall) -> Result<bool, PathError> {
    let values = values(alloc, field(row, 1))?;
    let at = place_named(alloc, field(row, 3))?;
    let answered = call_path(alloc, call, values.as_slice(), &at);
    drop(at);
    drop(values);
    let is_so = is_answer(alloc, &answered, field(row, 2));
    drop(answered);
    Ok(is_so?)
}

/// Whether the call of a row answers what the row expects.
pub(crate) fn is_answered(alloc: Global, row: &str) -> Result<bool, PathError> {
    match call_named(field(row, 0)) {
        Some(call) => answers(alloc, row, call),
        None => Ok(false),
    }
}
