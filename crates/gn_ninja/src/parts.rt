// Parts of a build line.

ghost use Rattle.std.specs.Prelude.{◌≡◌, ◌++◌, [], OnOk, IfOk, IfSome, ◌∷◌, map};
ghost use Rattle.std.specs.List.{flat_map, fold};
ghost use Rattle.gn_text.specs.Names.{with_name};
ghost use Rattle.gn_ninja_text.specs.Escapes.{path_escaped};
ghost use Rattle.gn_writing.specs.Kinds.{copied_outs, run_outs};
ghost use Rattle.gn_ninja.specs.Format.{spaced, firsts, with_bar, part};
ghost use Rattle.gn_ninja.specs.Code.{grouped, paths_of};

use crate::lines::Paths;
use gn_paths::{Text, Texts};
use gn_text::Names;
use gn_writing::{Copied, Run, is_missing};
use std::alloc::{AllocError, Global};

// Puts a path behind those that stand already, unless it is one of them. `seen` has them as names.
fn add_path<'a>(
    seen: &mut Names,
    paths: &mut Vec<&'a Text>,
    path: &'a Text,
) -> Result<(), AllocError>
    requires { map (λ t. t.now) paths.old.items ≡ seen.old }
    ensures names { OnOk result (seen.new ≡ with_name seen.old path.now) }
    ensures paths { OnOk result (map (λ t. t.now) paths.new.items ≡ seen.new) }
{
    if is_missing(seen, path) {
        seen.intern(path.as_bytes())?;
        paths.push(path)?;
    }
    Ok(())
}

// Puts each of a list behind those that stand already.
fn add_paths<'a>(
    seen: &mut Names,
    paths: &mut Vec<&'a Text>,
    more: &'a Texts,
) -> Result<(), AllocError>
    requires { map (λ t. t.now) paths.old.items ≡ seen.old }
    ensures names { OnOk result (seen.new ≡ fold with_name seen.old more.now) }
    ensures paths { OnOk result (map (λ t. t.now) paths.new.items ≡ seen.new) }
{
    for path in more.as_slice() {
        add_path(seen, paths, path)?;
    }
    Ok(())
}

// Puts what is copied behind those that stand already.
fn add_copied<'a>(
    seen: &mut Names,
    paths: &mut Vec<&'a Text>,
    files: &'a [Copied],
) -> Result<(), AllocError>
    requires { map (λ t. t.now) paths.old.items ≡ seen.old }
    ensures names { OnOk result (seen.new ≡ fold with_name seen.old (flat_map copied_outs files.now)) }
    ensures paths { OnOk result (map (λ t. t.now) paths.new.items ≡ seen.new) }
{
    for file in files {
        add_paths(seen, paths, &file.outs)?;
    }
    Ok(())
}

// Puts what runs make behind those that stand already.
fn add_runs<'a>(
    seen: &mut Names,
    paths: &mut Vec<&'a Text>,
    runs: &'a [Run],
) -> Result<(), AllocError>
    requires { map (λ t. t.now) paths.old.items ≡ seen.old }
    ensures names { OnOk result (seen.new ≡ fold with_name seen.old (flat_map run_outs runs.now)) }
    ensures paths { OnOk result (map (λ t. t.now) paths.new.items ≡ seen.new) }
{
    for run in runs {
        add_paths(seen, paths, &run.outs)?;
    }
    Ok(())
}

// Puts a group behind those that stand already.
fn add_group<'a>(
    seen: &mut Names,
    paths: &mut Vec<&'a Text>,
    group: Paths<'a>,
) -> Result<(), AllocError>
    requires { map (λ t. t.now) paths.old.items ≡ seen.old }
    ensures names { OnOk result (seen.new ≡ fold with_name seen.old (paths_of group.entry)) }
    ensures paths { OnOk result (map (λ t. t.now) paths.new.items ≡ seen.new) }
{
    match group {
        Paths::One(path) => add_path(seen, paths, path),
        Paths::All(more) => add_paths(seen, paths, more),
        Paths::Copied(files) => add_copied(seen, paths, files.as_slice()),
        Paths::Runs(runs) => add_runs(seen, paths, runs.as_slice()),
    }
}

// The paths of all groups, each once, at its first place.
fn firsts<'a>(alloc: Global, groups: &[Paths<'a>]) -> Result<Vec<&'a Text>, AllocError>
    ensures { IfOk result (λ paths. map (λ t. t.now) paths.items ≡ firsts (grouped groups.now)) }
{
    let mut seen = Names::new(alloc);
    let mut paths = Vec::new(alloc);
    for group in groups {
        add_group(&mut seen, &mut paths, *group)?;
    }
    Ok(paths)
}

// Puts a path as a Ninja file has it at the end.
#[tactic(auto, unfolding(gn_ninja_text::specs::Escapes::path_escaped))]
fn append_path(text: &mut Vec<u8>, path: &[u8]) -> Result<(), AllocError>
    ensures { OnOk result (text.new.items ≡ text.old.items ++ path_escaped path.now) }
{
    for byte in path {
        if b"$ :".contains(byte) {
            text.push(b'$')?;
        }
        text.push(*byte)?;
    }
    Ok(())
}

// Puts a path at the end, behind a space.
pub(crate) fn append_spaced(text: &mut Vec<u8>, path: &[u8]) -> Result<(), AllocError>
    ensures { OnOk result (text.new.items ≡ text.old.items ++ spaced path.now) }
{
    text.push(b' ')?;
    append_path(text, path)
}

// Puts paths at the end, each behind a space.
fn append_all(text: &mut Vec<u8>, paths: &[&Text]) -> Result<(), AllocError>
    ensures { OnOk result (text.new.items ≡ text.old.items ++ flat_map spaced (map (λ t. t.now) paths.now)) }
{
    for path in paths {
        append_spaced(text, path.as_bytes())?;
    }
    Ok(())
}

// Puts paths at the end behind their bar, unless there are none.
fn append_barred(text: &mut Vec<u8>, bar: &[u8], paths: &[&Text]) -> Result<(), AllocError>
    ensures { OnOk result (text.new.items ≡ text.old.items ++ with_bar bar.now (map (λ t. t.now) paths.now)) }
{
    if paths.is_empty() {
        return Ok(());
    }
    text.extend_from_slice(bar)?;
    append_all(text, paths)
}

// The path of a list of one path.
fn only_of(paths: &Texts) -> Option<&Text>
    ensures { IfSome result (λ path. paths.now ≡ path.now ∷ []) }
{
    match paths.as_slice() {
        [path] => Some(path),
        _ => None,
    }
}

// The path of groups that are one path.
fn only_path<'a>(groups: &[Paths<'a>]) -> Option<&'a Text>
    ensures { IfSome result (λ path. grouped groups.now ≡ path.now ∷ []) }
{
    match groups {
        [group] => match *group {
            Paths::One(path) => Some(path),
            Paths::All(paths) => only_of(paths),
            _ => None,
        },
        _ => None,
    }
}

// Puts a path at the end behind a bar.
fn append_one(text: &mut Vec<u8>, bar: &[u8], path: &Text) -> Result<(), AllocError>
    ensures { OnOk result (text.new.items ≡ text.old.items ++ with_bar bar.now (path.now ∷ [])) }
{
    text.extend_from_slice(bar)?;
    append_spaced(text, path.as_bytes())
}

// Puts the paths of several groups at the end.
#[tactic(auto, unfolding(crate::specs::Format::part))]
fn append_several(
    alloc: Global,
    text: &mut Vec<u8>,
    bar: &[u8],
    groups: &[Paths<'_>],
) -> Result<(), AllocError>
    ensures { OnOk result (text.new.items ≡ text.old.items ++ part bar.now (grouped groups.now)) }
{
    let paths = firsts(alloc, groups)?;
    append_barred(text, bar, paths.as_slice())
}

/// Puts a part of a build line at the end.
#[tactic(auto, unfolding(crate::specs::Format::part))]
pub(crate) fn append_part(
    alloc: Global,
    text: &mut Vec<u8>,
    bar: &[u8],
    groups: &[Paths<'_>],
) -> Result<(), AllocError>
    ensures { OnOk result (text.new.items ≡ text.old.items ++ part bar.now (grouped groups.now)) }
{
    match only_path(groups) {
        Some(path) => append_one(text, bar, path),
        None => append_several(alloc, text, bar, groups),
    }
}
