// `rebase_path`.

ghost use Rattle.std.specs.Prelude.{◌≡◌, ◌⊎◌, [], ◌∷◌, Ok, Some, None, IfOk, option_map, map};
ghost use Rattle.gn_paths.specs.Components.{is_absolute, ends_in_slash};
ghost use Rattle.gn_paths.specs.Normal.{IsNormal};
ghost use Rattle.gn_paths.specs.Rebase.{rebased};
ghost use Rattle.gn_paths.specs.Resolve.{path_meant};
ghost use Rattle.gn_values.specs.View.{val_of};
ghost use Rattle.gn_calls_text.specs.Answers.{refuses};
ghost use Rattle.gn_calls_text.specs.Views.{Settles, bytes_in};
ghost use Rattle.gn_calls_path.specs.Calls.{rebase_answer};
ghost use Rattle.gn_calls_path.specs.Each.{texts_of};
ghost use Rattle.gn_calls_path.specs.Found.{path_code, read_at};
ghost use Rattle.gn_calls_path.specs.Rebase.{new_base_at, current_base_at, shown, rebased_at, fault_in, anywhere, fault_from, first_fault, unless_faulty, rebased_answer};
ghost use Rattle.gn_calls_path.specs.Views.{IsFound, IsSound, base_text, new_base_of, given_of};

use crate::given::{OneOrList, one_or_list};
use crate::making::{Making, make_all};
use crate::place::Where;
use crate::reading::{path_code, read_path, refused};
use gn_calls_text::{CallError, bad_arguments, bytes_of, text_of};
use gn_faults::Code;
use gn_paths::{Path, PathFault, Text, path_meant, rebase};
use gn_values::Value;
use std::alloc::{AllocError, Global};

fn base_text(base: &Option<Path>) -> &[u8]
    ensures value { result.now ≡ base_text base.now }
    ensures normal { (result.now ≡ []) ⊎ IsNormal result.now }
{
    match base {
        Some(path) => path.as_bytes(),
        None => b"",
    }
}

fn shown_from(
    alloc: Global,
    path: &Path,
    new_base: &Option<Path>,
    root: &[u8],
) -> Result<Text, AllocError>
    ensures { IfOk result (λ t. t ≡ rebased path.now (base_text new_base.now) root.now) }
{
    match rebase(alloc, path, base_text(new_base), root) {
        Ok(text) => Ok(text),
        Err(_) => Err(AllocError),
    }
}

fn is_absolute(text: &[u8]) -> bool
    ensures { result ≡ is_absolute text.now }
{
    text.starts_with(b"/")
}

fn ends_in_slash(text: &[u8]) -> bool
    ensures { result ≡ ends_in_slash text.now }
{
    text.ends_with(b"/")
}

/// A path as it is shown; the source root has the final slash of its text.
fn shown(
    alloc: Global,
    at: &Where,
    new_base: &Option<Path>,
    text: &[u8],
    path: &Path,
) -> Result<Text, AllocError>
    ensures { IfOk result (λ t. t ≡ shown at.now (base_text new_base.now) text.now path.now) }
{
    let mut shown = shown_from(alloc, path, new_base, at.root.as_bytes())?;
    if path.as_bytes() == b"//".as_slice() && ends_in_slash(text) {
        shown.push(b'/')?;
    }
    Ok(shown)
}

/// What `rebase_path` makes of a text that starts at `current_base`.
pub(crate) fn rebase_text(
    alloc: Global,
    at: &Where,
    new_base: &Option<Path>,
    current_base: &Path,
    text: &[u8],
) -> Result<Text, CallError>
    ensures { IsFound (λ t. t) 0 result (rebased_at at.now (base_text new_base.now) current_base.now text.now) }
{
    let path = read_path(alloc, current_base, text, 0)?;
    Ok(shown(alloc, at, new_base, text, &path)?)
}

/// What keeps a text from being a path at each directory, by what keeps it from being one at the source root.
fn fault_anywhere(text: &[u8], fault: PathFault) -> Option<PathFault>
    ensures { result ≡ anywhere text.now (Some fault) }
{
    match fault {
        PathFault::BadPath => Some(PathFault::BadPath),
        PathFault::AboveRoot if is_absolute(text) => Some(PathFault::AboveRoot),
        PathFault::AboveRoot => None,
    }
}

fn fault_at(alloc: Global, directory: &Path, text: &[u8]) -> Result<Option<PathFault>, AllocError>
    ensures { IfOk result (λ f. f ≡ fault_in (path_meant directory.now text.now)) }
{
    match path_meant(alloc, directory, text)? {
        Ok(_) => Ok(None),
        Err(fault) => Ok(Some(fault)),
    }
}

fn fault_without_directory(alloc: Global, text: &[u8]) -> Result<Option<PathFault>, AllocError>
    ensures { IfOk result (λ f. f ≡ fault_from None text.now) }
{
    let root = Path::root(alloc)?;
    match path_meant(alloc, &root, text)? {
        Ok(_) => Ok(None),
        Err(fault) => Ok(fault_anywhere(text, fault)),
    }
}

/// What keeps a text from being a path at a directory, or at each directory.
fn fault_from(
    alloc: Global,
    directory: Option<&Path>,
    text: &[u8],
) -> Result<Option<PathFault>, AllocError>
    ensures { IfOk result (λ f. f ≡ fault_from (option_map (λ p. p.now) directory.entry) text.now) }
{
    match directory {
        Some(directory) => fault_at(alloc, directory, text),
        None => fault_without_directory(alloc, text),
    }
}

/// Refuses the first argument where one of its texts has a fault.
fn judge(alloc: Global, directory: Option<&Path>, texts: &[Value]) -> Result<(), CallError>
    ensures { IsSound result (first_fault (option_map (λ p. p.now) directory.entry) (map bytes_in texts.now)) }
{
    for text in texts {
        if let Some(fault) = fault_from(alloc, directory, bytes_of(text))? {
            return Err(refused(path_code(fault), 0));
        }
    }
    Ok(())
}

/// The directory from which a path is shown, if the text isn't empty.
fn read_new_base(
    alloc: Global,
    at: &Where,
    text: &[u8],
) -> Result<Result<Option<Path>, Code>, AllocError>
    ensures { IfOk result (λ b. new_base_of b ≡ new_base_at at.now text.now) }
{
    if text.is_empty() {
        return Ok(Ok(None));
    }
    match path_meant(alloc, &at.directory, text)? {
        Ok(path) => Ok(Ok(Some(path))),
        Err(fault) => Ok(Err(path_code(fault))),
    }
}

/// The directory at which a text starts.
fn read_current_base(
    alloc: Global,
    at: &Where,
    text: &[u8],
) -> Result<Result<Path, Code>, AllocError>
    ensures { IfOk result (λ b. b ≡ current_base_at at.now text.now) }
{
    match path_meant(alloc, &at.directory, text)? {
        Ok(path) => Ok(Ok(path.to_directory(alloc)?)),
        Err(fault) => Ok(Err(path_code(fault))),
    }
}

/// Refuses a wrong `new_base`, behind the faults of the texts.
fn refuse_new_base(
    alloc: Global,
    given: OneOrList<'_>,
    code: Code,
    current_base: &Path,
) -> Result<Value, CallError>
    ensures { Settles val_of result
        (unless_faulty (first_fault (Some current_base.now) (texts_of (given_of given.entry))) (refuses code (Some 1))) }
{
    judge(alloc, Some(current_base), given.as_slice())?;
    Err(refused(code, 1))
}

/// Refuses a wrong `current_base`, behind the faults of the texts that don't depend on it and that of `new_base`.
fn refuse_current_base(
    alloc: Global,
    given: OneOrList<'_>,
    new_base: &Result<Option<Path>, Code>,
    code: Code,
) -> Result<Value, CallError>
    ensures { Settles val_of result (unless_faulty (first_fault None (texts_of (given_of given.entry)))
        (read_at 1 (new_base_of new_base.now) (λ base. refuses code (Some 2)))) }
{
    judge(alloc, None, given.as_slice())?;
    match new_base {
        Ok(_) => Err(refused(code, 2)),
        Err(first) => Err(refused(*first, 1)),
    }
}

fn rebase_given(
    alloc: Global,
    at: &Where,
    given: OneOrList<'_>,
    new_base: &Result<Option<Path>, Code>,
    current_base: &Result<Path, Code>,
) -> Result<Value, CallError>
    ensures { Settles val_of result
        (rebased_answer at.now (given_of given.entry) (new_base_of new_base.now) current_base.now) }
{
    match current_base {
        Ok(directory) => match new_base {
            Ok(shown_from) => make_all(alloc, at, Making::Rebased(shown_from, directory), given),
            Err(code) => refuse_new_base(alloc, given, *code, directory),
        },
        Err(code) => refuse_current_base(alloc, given, new_base, *code),
    }
}

fn rebase_with(
    alloc: Global,
    at: &Where,
    given: OneOrList<'_>,
    new_base: &[u8],
    current_base: &[u8],
) -> Result<Value, CallError>
    ensures { Settles val_of result
        (rebased_answer at.now (given_of given.entry) (new_base_at at.now new_base.now) (current_base_at at.now current_base.now)) }
{
    let new_base = read_new_base(alloc, at, new_base)?;
    let current_base = read_current_base(alloc, at, current_base)?;
    rebase_given(alloc, at, given, &new_base, &current_base)
}

/// `rebase_path` from the current directory.
fn rebase_two(
    alloc: Global,
    at: &Where,
    paths: &Value,
    new_base: &Value,
) -> Result<Value, CallError>
    ensures { Settles val_of result (rebase_answer at.now (val_of paths.now ∷ val_of new_base.now ∷ [])) }
{
    let given = one_or_list(paths, 0)?;
    let new_base = text_of(new_base, 1)?;
    rebase_with(alloc, at, given, new_base, b".")
}

/// `rebase_path` from a directory that is given.
fn rebase_three(
    alloc: Global,
    at: &Where,
    paths: &Value,
    new_base: &Value,
    current_base: &Value,
) -> Result<Value, CallError>
    ensures { Settles val_of result
        (rebase_answer at.now (val_of paths.now ∷ val_of new_base.now ∷ val_of current_base.now ∷ [])) }
{
    let given = one_or_list(paths, 0)?;
    let new_base = text_of(new_base, 1)?;
    let current_base = text_of(current_base, 2)?;
    rebase_with(alloc, at, given, new_base, current_base)
}

/// What `rebase_path` answers to its values.
pub(crate) fn rebase_path(alloc: Global, args: &[Value], at: &Where) -> Result<Value, CallError>
    ensures { Settles val_of result (rebase_answer at.now (map val_of args.now)) }
{
    match args {
        [paths] => rebase_with(alloc, at, one_or_list(paths, 0)?, b"", b"."),
        [paths, new_base] => rebase_two(alloc, at, paths, new_base),
        [paths, new_base, current_base] => rebase_three(alloc, at, paths, new_base, current_base),
        _ => Err(bad_arguments()),
    }
}
