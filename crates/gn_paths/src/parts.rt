// The parts of a path's text.

ghost use Rattle.std.specs.Prelude.{◌≡◌, ◌==◌, ◌≤◌, not, length, IfOk};
ghost use Rattle.std.specs.List.{suffix_len};
ghost use Rattle.gn_paths.specs.Parts.{file_of, name_in, extension_in, dir_of, shown_dir, part_of};

use crate::text::Text;
use std::alloc::{AllocError, Global};

/// A part of a path's text.
#[derive(Clone, Copy, Debug, PartialEq, Eq)]
pub enum PathPart {
    /// The part after the last slash.
    File,
    /// The file without its extension and the dot before it.
    Name,
    /// The part of the file after its last dot, empty where it has none.
    Extension,
    /// The part before the last slash; `/.` and `//.` where that is a root, `.` where there is no slash.
    Dir,
}

/// The part of a text that is asked for, of the text as it is given.
pub fn part(alloc: Global, text: &[u8], what: PathPart) -> Result<Text, AllocError>
    ensures { IfOk result (λ t. t ≡ part_of what text.now) }
{
    match what {
        PathPart::File => Text::from_bytes(alloc, file(text)),
        PathPart::Name => Text::from_bytes(alloc, name(file(text))),
        PathPart::Extension => Text::from_bytes(alloc, extension(file(text))),
        PathPart::Dir => Text::from_bytes(alloc, dir(text)),
    }
}

// How many bytes stand after the last `byte`.
pub(crate) fn len_after(text: &[u8], byte: u8) -> usize
    ensures value { result ≡ suffix_len (λ b. not (b == byte)) text.now }
    ensures within { result ≤ length text.now }
{
    let mut n = text.len();
    while n > 0 && text[n - 1] != byte {
        n -= 1;
    }
    text.len() - n
}

fn file(text: &[u8]) -> &[u8]
    ensures { result.now ≡ file_of text.now }
{
    &text[text.len() - len_after(text, b'/')..]
}

fn name(file: &[u8]) -> &[u8]
    ensures { result.now ≡ name_in file.now }
{
    if file.contains(&b'.') {
        &file[..(file.len() - len_after(file, b'.')).saturating_sub(1)]
    } else {
        file
    }
}

fn extension(file: &[u8]) -> &[u8]
    ensures { result.now ≡ extension_in file.now }
{
    if file.contains(&b'.') {
        &file[file.len() - len_after(file, b'.')..]
    } else {
        b""
    }
}

#[tactic(auto, using(gn_basics::proofs::Texts::bytes_eq_nil))]
fn shown_dir(front: &[u8]) -> &[u8]
    ensures { result.now ≡ shown_dir front.now }
{
    if front.is_empty() {
        b"/."
    } else if front == b"/".as_slice() {
        b"//."
    } else {
        front
    }
}

fn dir(text: &[u8]) -> &[u8]
    ensures { result.now ≡ dir_of text.now }
{
    if text.contains(&b'/') {
        shown_dir(&text[..(text.len() - len_after(text, b'/')).saturating_sub(1)])
    } else {
        b"."
    }
}
