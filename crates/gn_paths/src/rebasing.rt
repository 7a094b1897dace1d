// A path as it is shown from another directory, or from the system's root.

ghost use Rattle.std.specs.Prelude.{◌≡◌, ◌⊎◌, ◌&&◌, ◌∷◌, ◌++◌, [], IfOk, IfErr, IsTrue, OnOk, OnErr, ◌<◌, drop, length, map, replicate};
ghost use Rattle.std.specs.List.{count_by};
ghost use Rattle.gn_paths.specs.Components.{is_slash, is_source, two_dots, trail, components};
ghost use Rattle.gn_paths.specs.Normal.{IsNormal};
ghost use Rattle.gn_paths.specs.Rebase.{IsTrail, parts, relative, joined, dotted, keeps_slash, closed, rooted, root_components, system_components, system_path, shown_from, rebased, seen_from};

use crate::components::{
    ends_in_slash, is_absolute, is_source, piece_len, top_len, without_final_slash,
};
use crate::directories::as_directory;
use crate::error::PathError;
use crate::path::Path;
use crate::text::Text;
use std::alloc::{AllocError, Global};

/// A path as it is shown from the directory `new_base`, or as the system's path where `new_base` is
/// empty. `root` is the system's path of the source root. All final slashes of `new_base` go; that of the
/// path is kept, and the source root `//` gives a text without one. `.` stands instead of nothing. Where
/// `new_base` isn't empty and one of both is a system path, both are taken as system paths, over their
/// components as they stand; a first component that is empty is shown as `.`. The one error is `Memory`.
pub fn rebase(alloc: Global, input: &Path, new_base: &[u8], root: &[u8]) -> Result<Text, PathError>
    requires { (new_base.now ≡ []) ⊎ IsNormal new_base.now }
    ensures ok { IfOk result (λ t. t ≡ rebased input.now new_base.now root.now) }
    ensures err { IfErr result (λ e. e ≡ PathError.Memory) }
{
    let text = rebased(alloc, input.as_bytes(), new_base, root)?;
    Ok(Text::from_vec(text))
}

#[tactic(auto, using(gn_basics::proofs::Texts::bytes_eq_nil), unfolding(crate::specs::Rebase::rebased))]
fn rebased(alloc: Global, path: &[u8], new_base: &[u8], root: &[u8]) -> Result<Vec<u8>, AllocError>
    requires path { IsNormal path.now }
    requires base { (new_base.now ≡ []) ⊎ IsNormal new_base.now }
    ensures { IfOk result (λ text. text.items ≡ rebased path.now new_base.now root.now) }
{
    if new_base.is_empty() {
        return system_path(alloc, path, root);
    }
    shown_from(alloc, path, as_directory(new_base), root)
}

impl Path {
    /// The path as it is seen from a directory of the source tree, as the build directory is: `../a.cc` for `//a.cc`
    /// seen from `//out`, `.` for the directory itself, `obj/x` for what stands below it. A final slash is kept, but
    /// that of `//`, and a system path stays as it is. What is seen, resolved from the directory, is the path again.
    #[tactic(auto, unfolding(crate::specs::Rebase::seen_from))]
    pub fn seen_from(&self, alloc: Global, directory: &Path) -> Result<Text, AllocError>
        ensures { IfOk result (λ t. t ≡ seen_from directory.now self.now) }
    {
        let path = self.as_bytes();
        if !is_source(path) {
            return Text::from_bytes(alloc, path);
        }
        let text = shown_in_source(alloc, path, directory.as_bytes())?;
        Ok(Text::from_vec(text))
    }
}

// What leads from a directory to a path.
fn shown_from(alloc: Global, path: &[u8], base: &[u8], root: &[u8]) -> Result<Vec<u8>, AllocError>
    requires path { IsNormal path.now }
    requires base { IsNormal base.now }
    ensures { IfOk result (λ text. text.items ≡ shown_from path.now base.now root.now) }
{
    if are_source(path, base) {
        shown_in_source(alloc, path, base)
    } else {
        shown_in_system(alloc, path, base, root)
    }
}

// Over the components of the source tree.
fn shown_in_source(alloc: Global, path: &[u8], base: &[u8]) -> Result<Vec<u8>, AllocError>
    requires path { IsNormal path.now }
    requires base { IsNormal base.now }
    ensures { IfOk result (λ text. text.items ≡ closed (joined (relative (components base.now) (components path.now))) (keeps_slash path.now)) }
{
    let start = trail_of(base);
    let end = trail_of(path);
    let text = show(alloc, start, end, keeps_slash(path))?;
    Ok(text)
}

// Over those of the system's paths.
fn shown_in_system(
    alloc: Global,
    path: &[u8],
    base: &[u8],
    root: &[u8],
) -> Result<Vec<u8>, AllocError>
    requires path { IsNormal path.now }
    requires base { IsNormal base.now }
    ensures { IfOk result (λ text. text.items ≡ closed (joined (relative (system_components root.now base.now) (system_components root.now path.now))) (keeps_slash path.now)) }
{
    let base = system_trail(alloc, base, root)?;
    let shown = system_trail(alloc, path, root)?;
    let text = show(alloc, base.as_slice(), shown.as_slice(), keeps_slash(path))?;
    Ok(text)
}

fn are_source(path: &[u8], new_base: &[u8]) -> bool
    ensures { result ≡ (is_source path.now && is_source new_base.now) }
{
    is_source(path) && is_source(new_base)
}

fn keeps_slash(path: &[u8]) -> bool
    ensures { result ≡ keeps_slash path.now }
{
    path != b"//".as_slice() && ends_in_slash(path)
}

// The components of an absolute path, each behind a slash.
pub(crate) fn trail_of(path: &[u8]) -> &[u8]
    requires { IsNormal path.now }
    ensures { result.now ≡ trail (components path.now) }
{
    &without_final_slash(path)[top_len(path)..]
}

// The system's path.
fn system_path(alloc: Global, path: &[u8], root: &[u8]) -> Result<Vec<u8>, AllocError>
    requires { IsNormal path.now }
    ensures { IfOk result (λ text. text.items ≡ system_path root.now path.now) }
{
    if !is_source(path) {
        return Vec::from_slice(alloc, path);
    }
    let mut text = Vec::from_slice(alloc, root)?;
    text.extend_from_slice(trail_of(path))?;
    if keeps_slash(path) {
        text.push(b'/')?;
    }
    Ok(text)
}

// The components of a path as a system path, each behind a slash.
fn system_trail(alloc: Global, path: &[u8], root: &[u8]) -> Result<Vec<u8>, AllocError>
    requires { IsNormal path.now }
    ensures { IfOk result (λ text. text.items ≡ trail (system_components root.now path.now)) }
{
    if !is_source(path) {
        return Vec::from_slice(alloc, trail_of(path));
    }
    let mut text = Vec::new(alloc);
    append_root(&mut text, without_final_slash(root))?;
    text.extend_from_slice(trail_of(path))?;
    Ok(text)
}

fn append_root(text: &mut Vec<u8>, root: &[u8]) -> Result<(), AllocError>
    ensures { OnOk result (text.new.items ≡ text.old.items ++ rooted root.now) }
{
    if !root.is_empty() && !is_absolute(root) {
        text.push(b'/')?;
    }
    text.extend_from_slice(root)
}

// What leads from the components of `base` to those of `path`.
fn show(alloc: Global, base: &[u8], path: &[u8], ends_in_slash: bool) -> Result<Vec<u8>, AllocError>
    requires base { IsTrail base.now }
    requires path { IsTrail path.now }
    ensures { IfOk result (λ text. text.items ≡ closed (joined (relative (parts base.now) (parts path.now))) ends_in_slash) }
{
    let (base, path) = without_common(base, path);
    let mut text = Vec::with_capacity(alloc, base.len().saturating_add(path.len()))?;
    append_relative(&mut text, slash_count(base), path)?;
    append_final(&mut text, ends_in_slash)?;
    Ok(text)
}

fn append_final(text: &mut Vec<u8>, ends_in_slash: bool) -> Result<(), AllocError>
    ensures { OnOk result (text.new.items ≡ closed text.old.items ends_in_slash) }
{
    if ends_in_slash {
        text.push(b'/')?;
    }
    Ok(())
}

// Both without the components with which both begin.
fn without_common<'a>(base: &'a [u8], path: &'a [u8]) -> (&'a [u8], &'a [u8])
    requires base { IsTrail base.now }
    requires path { IsTrail path.now }
    ensures base { IsTrail result.0.now }
    ensures path { IsTrail result.1.now }
    ensures value { relative (parts base.now) (parts path.now) ≡ map (λ _. two_dots) (parts result.0.now) ++ parts result.1.now }
{
    let mut base_rest = base;
    let mut path_rest = path;
    'components: while !base_rest.is_empty() {
        if path_rest.is_empty() {
            return (base_rest, path_rest);
        }
        let (base_first, base_more) = split_first(base_rest);
        let (path_first, path_more) = split_first(path_rest);
        if base_first != path_first {
            return (base_rest, path_rest);
        }
        base_rest = base_more;
        path_rest = path_more;
    }
    (base_rest, path_rest)
}

// The first component, and the further ones.
pub(crate) fn split_first(trail: &[u8]) -> (&[u8], &[u8])
    requires trail { IsTrail trail.now }
    requires filled { 0 < length trail.now }
    ensures value { parts trail.now ≡ result.0.now ∷ parts result.1.now }
    ensures more { IsTrail result.1.now }
    ensures shorter { length result.1.now < length trail.now }
{
    let text = &trail[1..];
    text.split_at(piece_len(text))
}

fn slash_count(text: &[u8]) -> usize
    ensures { result ≡ count_by is_slash text.now }
{
    text.iter().filter(|byte| **byte == b'/').count()
}

// Puts `ups` times `..` and the components of `path` at the end, with a slash between two, or `.`.
fn append_relative(text: &mut Vec<u8>, ups: usize, path: &[u8]) -> Result<(), AllocError>
    requires { IsTrail path.now }
    ensures { OnOk result (text.new.items ≡ text.old.items ++ joined (replicate ups two_dots ++ parts path.now)) }
{
    if ups == 0 {
        return append_down(text, path);
    }
    text.extend_from_slice(b"..")?;
    append_ups(text, ups - 1)?;
    text.extend_from_slice(path)?;
    Ok(())
}

// Puts the components of `path` at the end, with a slash between two, or `.`.
fn append_down(text: &mut Vec<u8>, path: &[u8]) -> Result<(), AllocError>
    requires { IsTrail path.now }
    ensures { OnOk result (text.new.items ≡ text.old.items ++ joined (parts path.now)) }
{
    append_dotted(text, without_first(path))?;
    Ok(())
}

#[tactic(auto, using(gn_basics::proofs::Texts::bytes_eq_nil))]
fn append_dotted(text: &mut Vec<u8>, down: &[u8]) -> Result<(), AllocError>
    ensures { OnOk result (text.new.items ≡ text.old.items ++ dotted down.now) }
{
    if down.is_empty() || is_absolute(down) {
        text.push(b'.')?;
    }
    text.extend_from_slice(down)
}

fn without_first(path: &[u8]) -> &[u8]
    ensures { result.now ≡ drop 1 path.now }
{
    if path.is_empty() { path } else { &path[1..] }
}

fn append_ups(text: &mut Vec<u8>, ups: usize) -> Result<(), AllocError>
    ensures { OnOk result (text.new.items ≡ text.old.items ++ trail (replicate ups two_dots)) }
{
    for _up in 0..ups {
        text.extend_from_slice(b"/..")?;
    }
    Ok(())
}
