// The path that a text means at a current directory.

ghost use Rattle.std.specs.Prelude.{◌≡◌, ◌⊎◌, true, if◌then◌else◌, Some, None, Ok, Err, MatchResult, IfOk, IfErr, OnErr, OnOk, IsTrue, ◌++◌, ◌∷◌, length};
ghost use Rattle.std.specs.List.{before_last};
ghost use Rattle.gn_paths.specs.Components.{is_slash, pieces, without_final_slash};
ghost use Rattle.gn_paths.specs.declared.error.PathError.TheVariants.{BadPath};
ghost use Rattle.gn_paths.specs.Normal.{IsNormal};
ghost use Rattle.gn_paths.specs.Reading.{is_clean, IsFault};
ghost use Rattle.gn_paths.specs.Resolve.{start_of, path_meant, resolved};
ghost use Rattle.gn_paths.specs.Buffer.{buffer_stepped, buffer_walked, buffer_closed, buffer_led};

use crate::components::{
    ends_in_slash, is_source, is_system, stays_there, top_len, without_final_slash,
};
use crate::error::{PathError, PathFault};
use crate::parts::len_after;
use crate::path::Path;
use crate::reading::{clean_piece_len, is_clean};
use crate::text::Text;
use std::alloc::{AllocError, Global};

/// The path that a text means at a current directory. `//x` starts at the source root, `/x` is a system
/// path and stays as it stands, all else starts at the current directory. Empty and `.` components go,
/// `..` removes one, a final slash is kept, and a root has none. `BadPath` comes exactly where the text
/// is empty, holds a NUL or a newline or isn't UTF-8, and else `AboveRoot` where a `..` climbs above the
/// root.
pub fn resolve(alloc: Global, current: &Path, text: &[u8]) -> Result<Path, PathError>
    ensures ok { IfOk result (λ p. resolved current.now text.now ≡ Ok p) }
    ensures err { IfErr result (λ e. (e ≡ PathError.Memory) ⊎ (resolved current.now text.now ≡ Err e)) }
    ensures bad { resolved current.now text.now ≡ Err PathError.BadPath → result ≡ Err PathError.BadPath }
{
    if text.is_empty() {
        return Err(PathError::BadPath);
    }
    if is_system(text) {
        let path = keep(alloc, text)?;
        return Ok(Path::from_normal(path));
    }
    let path = lead(alloc, start_of(current, text), text)?;
    Ok(Path::from_normal(Text::from_vec(path)))
}

/// The path that a text means at a current directory, or what keeps it from naming one, as `resolve` says; the outer
/// error is want of memory alone.
#[tactic(auto, using(crate::proofs::ResolveLemmas::meant_ok, crate::proofs::ResolveLemmas::meant_above, crate::proofs::ResolveLemmas::meant_bad))]
pub fn path_meant(
    alloc: Global,
    current: &Path,
    text: &[u8],
) -> Result<Result<Path, PathFault>, AllocError>
    ensures { IfOk result (λ meant. meant ≡ path_meant current.now text.now) }
{
    match resolve(alloc, current, text) {
        Ok(path) => Ok(Ok(path)),
        Err(PathError::AboveRoot) => Ok(Err(PathFault::AboveRoot)),
        Err(PathError::BadPath) => Ok(Err(PathFault::BadPath)),
        Err(PathError::Memory) => Err(AllocError),
    }
}

fn start_of<'a>(current: &'a Path, text: &[u8]) -> &'a [u8]
    ensures value { result.now ≡ start_of current.now text.now }
    ensures normal { IsNormal result.now }
{
    if is_source(text) {
        b"//"
    } else {
        current.as_bytes()
    }
}

// The text of a path that stays as it stands.
fn keep(alloc: Global, text: &[u8]) -> Result<Text, PathError>
    ensures { MatchResult result (λ path. (is_clean text.now ≡ true) × (path ≡ text.now)) (λ e. IsFault text.now (Some text.now) e) }
{
    if !is_clean(text) {
        return Err(PathError::BadPath);
    }
    Ok(Text::from_bytes(alloc, text)?)
}

// What is told where `error` came and `rest` isn't read yet: what keeps it from naming a path goes first.
fn fault(rest: &[u8], error: PathError) -> PathError
    ensures { result ≡ (if is_clean rest.now then error else BadPath) }
{
    if is_clean(rest) {
        error
    } else {
        PathError::BadPath
    }
}

// The bytes of the path to which a text leads from a directory.
fn lead(alloc: Global, start: &[u8], text: &[u8]) -> Result<Vec<u8>, PathError>
    ensures { MatchResult result (λ path. (is_clean text.now ≡ true) × (buffer_led start.now text.now ≡ Some path.items)) (λ e. IsFault text.now (buffer_led start.now text.now) e) }
{
    let top = top_len(start);
    let mut buffer = match begin(alloc, start, text) {
        Ok(buffer) => buffer,
        Err(error) => return Err(fault(text, error.into())),
    };
    walk(&mut buffer, top, text)?;
    close(&mut buffer, top, ends_in_slash(text))?;
    Ok(buffer)
}

// The bytes of a directory, with room for those of a text that leads on from there.
fn begin(alloc: Global, start: &[u8], text: &[u8]) -> Result<Vec<u8>, AllocError>
    ensures { IfOk result (λ buffer. buffer.items ≡ without_final_slash start.now) }
{
    let base = without_final_slash(start);
    let mut buffer = Vec::with_capacity(alloc, base.len() + text.len() + 1)?;
    buffer.extend_from_slice(base)?;
    Ok(buffer)
}

// Takes each piece of a text in turn, as it is read.
fn walk(buffer: &mut Vec<u8>, top: usize, text: &[u8]) -> Result<(), PathError>
    ensures { MatchResult result (λ _. (is_clean text.now ≡ true) × (buffer_walked top buffer.old.items (pieces text.now) ≡ Some buffer.new.items)) (λ e. IsFault text.now (buffer_walked top buffer.old.items (pieces text.now)) e) }
{
    let mut rest = text;
    while let Some(n) = clean_piece_len(rest) {
        if let Err(error) = step(buffer, top, &rest[..n]) {
            return Err(fault(&rest[n..], error));
        }
        if n == rest.len() {
            return Ok(());
        }
        rest = &rest[n + 1..];
    }
    Err(PathError::BadPath)
}

// Takes one piece of a text.
#[tactic(auto, unfolding(crate::specs::Buffer::buffer_stepped))]
fn step(buffer: &mut Vec<u8>, top: usize, piece: &[u8]) -> Result<(), PathError>
    ensures { MatchResult result (λ _. buffer_stepped top buffer.old.items piece.now ≡ Some buffer.new.items) (λ e. (e ≡ PathError.Memory) ⊎ ((e ≡ PathError.AboveRoot) × (buffer_stepped top buffer.old.items piece.now ≡ None))) }
{
    if stays_there(piece) {
        return Ok(());
    }
    if piece == b"..".as_slice() {
        if buffer.len() == top {
            return Err(PathError::AboveRoot);
        }
        climb(buffer);
        return Ok(());
    }
    append_piece(buffer, piece)?;
    Ok(())
}

// Takes the last component away.
fn climb(buffer: &mut Vec<u8>)
    ensures { buffer.new.items ≡ before_last is_slash buffer.old.items }
{
    let n = len_after(buffer.as_slice(), b'/');
    buffer.truncate((buffer.len() - n).saturating_sub(1));
}

// Puts a component at the end.
pub(crate) fn append_piece(buffer: &mut Vec<u8>, piece: &[u8]) -> Result<(), AllocError>
    ensures { OnOk result (buffer.new.items ≡ buffer.old.items ++ 47 ∷ piece.now) }
{
    buffer.push(b'/')?;
    buffer.extend_from_slice(piece)
}

// Puts the last slash, which a root has, and the path of a text that ends in one.
fn close(buffer: &mut Vec<u8>, top: usize, ends_in_slash: bool) -> Result<(), AllocError>
    ensures { OnOk result (buffer.new.items ≡ buffer_closed top ends_in_slash buffer.old.items) }
{
    if buffer.len() == top || ends_in_slash {
        buffer.push(b'/')?;
    }
    Ok(())
}
