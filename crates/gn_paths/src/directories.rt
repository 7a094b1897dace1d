// Directories: paths without a final slash, the directory of a file, and what stands below a directory.

ghost use Rattle.std.specs.Prelude.{◌≡◌, ◌≤◌, ◌++◌, ◌∷◌, [], nat_eq, length, IfOk, IsTrue};
ghost use Rattle.std.specs.List.{suffix_len, starts_with};
ghost use Rattle.gn_paths.specs.Components.{is_slash, slash, top_of, without_final_slashes, up_to_last_slash};
ghost use Rattle.gn_paths.specs.Normal.{IsNormal};
ghost use Rattle.gn_paths.specs.Directory.{as_directory, is_directory, directory_of, with_slash, stands_below, is_below};

use crate::components::{ends_in_slash, is_source};
use crate::parts::len_after;
use crate::path::Path;
use crate::text::Text;
use std::alloc::{AllocError, Global};

/// The directory in which the file at a path stands: `//a` of `//a/b.gni`, the source root of `//b.gni`, `/s` of `/s//a`
/// and `/` of `/a`. It has no final slash but that of `//` and `/` themselves.
#[tactic(auto, unfolding(crate::specs::Directory::directory_of))]
pub fn directory(alloc: Global, path: &Path) -> Result<Path, AllocError>
    ensures value { IfOk result (λ d. d ≡ directory_of path.now) }
    ensures form { IfOk result (λ d. IsTrue (is_directory d)) }
{
    as_path(alloc, up_to_last_slash(path.as_bytes()))
}

impl Path {
    /// The path as a directory: without its final slashes, which only `//` and `/` themselves keep.
    pub fn to_directory(&self, alloc: Global) -> Result<Path, AllocError>
        ensures value { IfOk result (λ d. d ≡ as_directory self.now) }
        ensures form { IfOk result (λ d. IsTrue (is_directory d)) }
    {
        as_path(alloc, self.as_bytes())
    }

    /// Whether the path stands strictly below a directory, final slashes aside. It takes no memory.
    #[tactic(auto, unfolding(crate::specs::Directory::is_below))]
    pub fn is_below(&self, directory: &Path) -> bool
        ensures { result ≡ is_below directory.now self.now }
    {
        stands_below(
            as_directory(directory.as_bytes()),
            as_directory(self.as_bytes()),
        )
    }
}

fn as_path(alloc: Global, path: &[u8]) -> Result<Path, AllocError>
    requires { IsNormal path.now }
    ensures value { IfOk result (λ d. d ≡ as_directory path.now) }
    ensures form { IfOk result (λ d. IsTrue (is_directory d)) }
{
    let text = Text::from_bytes(alloc, as_directory(path))?;
    Ok(Path::from_normal(text))
}

// The text up to its last slash and with it.
fn up_to_last_slash(path: &[u8]) -> &[u8]
    requires { IsNormal path.now }
    ensures value { result.now ≡ up_to_last_slash path.now }
    ensures normal { IsNormal result.now }
{
    &path[..path.len() - len_after(path, b'/')]
}

// The path as a directory.
pub(crate) fn as_directory(path: &[u8]) -> &[u8]
    requires { IsNormal path.now }
    ensures value { result.now ≡ as_directory path.now }
    ensures normal { IsNormal result.now }
    ensures form { IsTrue (is_directory result.now) }
{
    left_or_root(path)
}

#[tactic(auto, using(gn_basics::proofs::Texts::bytes_eq_nil), unfolding(crate::specs::Directory::as_directory))]
fn left_or_root(path: &[u8]) -> &[u8]
    ensures { result.now ≡ as_directory path.now }
{
    let left = without_final_slashes(path);
    if left.is_empty() { root_of(path) } else { left }
}

fn without_final_slashes(text: &[u8]) -> &[u8]
    ensures { result.now ≡ without_final_slashes text.now }
{
    &text[..text.len() - final_slash_count(text)]
}

fn root_of(path: &[u8]) -> &[u8]
    ensures { result.now ≡ top_of path.now ++ slash }
{
    if is_source(path) { b"//" } else { b"/" }
}

fn final_slash_count(text: &[u8]) -> usize
    ensures value { result ≡ suffix_len is_slash text.now }
    ensures within { result ≤ length text.now }
{
    let mut n = text.len();
    while n > 0 && text[n - 1] == b'/' {
        n -= 1;
    }
    text.len() - n
}

fn stands_below(directory: &[u8], path: &[u8]) -> bool
    ensures { result ≡ stands_below directory.now path.now }
{
    path != directory
        && ((is_source(directory) || !is_source(path)) && begins_within(directory, path))
}

// Whether a text begins with a directory and a slash.
fn begins_within(directory: &[u8], path: &[u8]) -> bool
    ensures { result ≡ starts_with nat_eq path.now (with_slash directory.now) }
{
    if ends_in_slash(directory) {
        return path.starts_with(directory);
    }
    begins_with_slash_behind(directory, path)
}

// Whether a text begins with another and a slash.
fn begins_with_slash_behind(outer: &[u8], text: &[u8]) -> bool
    ensures { result ≡ starts_with nat_eq text.now (outer.now ++ 47 ∷ []) }
{
    match text.strip_prefix(outer) {
        Some(rest) => rest.starts_with(b"/"),
        None => false,
    }
}
