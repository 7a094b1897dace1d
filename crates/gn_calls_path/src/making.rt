// Calls that make a text of each string of their first argument.

ghost use Rattle.std.specs.Prelude.{◌≡◌, ◌++◌, IfOk, map};
ghost use Rattle.gn_paths.specs.Directory.{directory_of, output_directory};
ghost use Rattle.gn_values.specs.View.{val_of};
ghost use Rattle.gn_calls_text.specs.Views.{Settles, bytes_in};
ghost use Rattle.gn_calls_path.specs.Calls.{path_info, path_info_at, path_info_answer};
ghost use Rattle.gn_calls_path.specs.Directories.{root_out, source_part, system_part, directory_for_outputs};
ghost use Rattle.gn_calls_path.specs.Each.{one, listed, answer_each};
ghost use Rattle.gn_calls_path.specs.Found.{each};
ghost use Rattle.gn_calls_path.specs.Outputs.{name_of};
ghost use Rattle.gn_calls_path.specs.Views.{IsFound, made_at, given_of};

use crate::answers::{string, strings};
use crate::given::{OneOrList, one_or_list};
use crate::names::PathInfo;
use crate::place::Where;
use crate::reading::{put, read_path};
use crate::rebasing::rebase_text;
use gn_calls_text::{CallError, bad_arguments, bytes_of, text_of};
use gn_paths::{Path, Text, directory, gen_directory, obj_directory, part};
use gn_values::Value;
use std::alloc::{AllocError, Global};

/// What is made of a text.
#[derive(Clone, Copy)]
pub(crate) enum Making<'a> {
    /// What is asked of a path.
    Info(PathInfo),
    /// The path as it is shown from the first of these directories, or as the system's path where there is none. The text
    /// starts at the second directory.
    Rebased(&'a Option<Path>, &'a Path),
}

/// Which outputs a directory has.
#[derive(Clone, Copy)]
pub(crate) enum Outputs {
    /// Objects.
    Obj,
    /// Generated files.
    Gen,
}

/// The directory of outputs that stands for that of a path.
fn outputs_dir(alloc: Global, at: &Where, outputs: Outputs, path: &Path) -> Result<Text, AllocError>
    ensures { IfOk result (λ t. t ≡ directory_for_outputs (name_of outputs) (root_out at.now) (directory_of path.now)) }
{
    let directory = directory(alloc, path)?;
    let text = outputs_of(alloc, at, outputs, &directory);
    drop(directory);
    text
}

/// The directory of outputs that stands for a directory.
fn outputs_of(
    alloc: Global,
    at: &Where,
    outputs: Outputs,
    directory: &Path,
) -> Result<Text, AllocError>
    ensures { IfOk result (λ t. t ≡ directory_for_outputs (name_of outputs) (root_out at.now) directory.now) }
{
    let out = at.root_out_of(alloc, &at.toolchain)?;
    let text = outputs_below(alloc, outputs, &out, directory);
    drop(out);
    text
}

/// The directory of outputs below an output directory that stands for a directory.
fn outputs_below(
    alloc: Global,
    outputs: Outputs,
    out: &Path,
    directory: &Path,
) -> Result<Text, AllocError>
    ensures { IfOk result (λ t. t ≡ directory_for_outputs (name_of outputs) out.now directory.now) }
{
    let part = source_part(alloc, directory)?;
    let made = output_directory(alloc, outputs, out, &part);
    drop(part);
    let made = made?;
    let text = with_system_part(alloc, &made, directory);
    drop(made);
    text
}

/// The directory of outputs below an output directory that stands for a directory of the source tree.
fn output_directory(
    alloc: Global,
    outputs: Outputs,
    out: &Path,
    directory: &Path,
) -> Result<Path, AllocError>
    ensures { IfOk result (λ d. d ≡ output_directory (name_of outputs) out.now directory.now) }
{
    match outputs {
        Outputs::Obj => obj_directory(alloc, out, directory),
        Outputs::Gen => gen_directory(alloc, out, directory),
    }
}

/// The directory of the source tree in whose place outputs stand: the source root for a directory of the system.
fn source_part(alloc: Global, directory: &Path) -> Result<Path, AllocError>
    ensures { IfOk result (λ d. d ≡ source_part directory.now) }
{
    if directory.is_system() {
        Path::root(alloc)
    } else {
        directory.copy(alloc)
    }
}

/// A directory of outputs, and behind it the text of a directory of the system as it stands.
fn with_system_part(alloc: Global, made: &Path, directory: &Path) -> Result<Text, AllocError>
    ensures { IfOk result (λ t. t ≡ made.now ++ system_part directory.now) }
{
    let mut text = made.as_text().copy(alloc)?;
    text.append(system_part(directory))?;
    Ok(text)
}

/// The text of a directory of the system, and nothing for `/` and for a directory of the source tree.
fn system_part(directory: &Path) -> &[u8]
    ensures { result.now ≡ system_part directory.now }
{
    if directory.is_system() && directory.as_bytes() != b"/".as_slice() {
        directory.as_bytes()
    } else {
        b""
    }
}

/// What is asked of a text and its path.
fn path_info(
    alloc: Global,
    at: &Where,
    info: PathInfo,
    text: &[u8],
    path: &Path,
) -> Result<Text, AllocError>
    ensures { IfOk result (λ t. t ≡ path_info at.now info text.now path.now) }
{
    match info {
        PathInfo::Part(asked) => part(alloc, text, asked),
        PathInfo::OutDir => outputs_dir(alloc, at, Outputs::Obj, path),
        PathInfo::GenDir => outputs_dir(alloc, at, Outputs::Gen, path),
        PathInfo::AbsPath => path.as_text().copy(alloc),
    }
}

fn info_text(alloc: Global, at: &Where, info: PathInfo, text: &[u8]) -> Result<Text, CallError>
    ensures { IsFound (λ t. t) 0 result (path_info_at at.now info text.now) }
{
    let path = read_path(alloc, &at.directory, text, 0)?;
    Ok(path_info(alloc, at, info, text, &path)?)
}

/// What is made of a text of the first argument.
fn make(alloc: Global, at: &Where, making: Making<'_>, text: &[u8]) -> Result<Text, CallError>
    ensures { IsFound (λ t. t) 0 result (made_at at.now making.entry text.now) }
{
    match making {
        Making::Info(info) => info_text(alloc, at, info, text),
        Making::Rebased(new_base, current_base) => {
            rebase_text(alloc, at, new_base, current_base, text)
        }
    }
}

/// What is made of each string of the first argument.
fn make_each(
    alloc: Global,
    at: &Where,
    making: Making<'_>,
    texts: &[Value],
) -> Result<Vec<Text>, CallError>
    ensures { IsFound (λ ts. ts.items) 0 result (each (made_at at.now making.entry) (map bytes_in texts.now)) }
{
    let mut made = Vec::with_capacity(alloc, texts.len())?;
    for text in texts {
        put(&mut made, make(alloc, at, making, bytes_of(text))?)?;
    }
    Ok(made)
}

fn make_one(alloc: Global, at: &Where, making: Making<'_>, text: &[u8]) -> Result<Value, CallError>
    ensures { Settles val_of result (answer_each (made_at at.now making.entry) (one text.now)) }
{
    string(make(alloc, at, making, text)?)
}

fn make_list(
    alloc: Global,
    at: &Where,
    making: Making<'_>,
    texts: &[Value],
) -> Result<Value, CallError>
    ensures { Settles val_of result (answer_each (made_at at.now making.entry) (listed (map bytes_in texts.now))) }
{
    let made = make_each(alloc, at, making, texts)?;
    strings(alloc, made.as_slice())
}

/// What is made of the first argument: a list gives a list.
pub(crate) fn make_all(
    alloc: Global,
    at: &Where,
    making: Making<'_>,
    given: OneOrList<'_>,
) -> Result<Value, CallError>
    ensures { Settles val_of result (answer_each (made_at at.now making.entry) (given_of given.entry)) }
{
    match given {
        OneOrList::One(text) => make_one(alloc, at, making, bytes_of(text)),
        OneOrList::Listed(texts) => make_list(alloc, at, making, texts),
    }
}

/// What `get_path_info` answers to its values.
pub(crate) fn get_path_info(alloc: Global, args: &[Value], at: &Where) -> Result<Value, CallError>
    ensures { Settles val_of result (path_info_answer at.now (map val_of args.now)) }
{
    let [paths, what] = args else {
        return Err(bad_arguments());
    };
    let given = one_or_list(paths, 0)?;
    let name = text_of(what, 1)?;
    match PathInfo::named(name) {
        Some(info) => make_all(alloc, at, Making::Info(info), given),
        None => Err(bad_arguments()),
    }
}
