// The label that a text means.

ghost use Rattle.std.specs.Prelude.{◌≡◌, ◌⊎◌, ◌++◌, ◌∷◌, [], Ok, Err, IfOk, IfErr};
ghost use Rattle.std.specs.List.{filter};
ghost use Rattle.gn_paths.specs.Resolve.{moves};
ghost use Rattle.gn_labels.specs.Reading.{named, directory_of, named_apart, may_be_last, fault_behind, named_by_last, named_whole, last_or, written_last, named_read, label_under, label_of, label_read, label_error, label_answered};

use crate::bytes::{len_before, starts_in_source};
use crate::error::{LabelError, LabelFault};
use crate::label::Label;
use crate::name::is_name;
use crate::named::Named;
use crate::toolchain::{both, toolchain_in};
use gn_paths::{
    Path, PathError, PathFault, PathPart, Text, is_source, leads_down, part, path_meant,
    stays_there,
};
use std::alloc::{AllocError, Global};

// The path text of a directory that isn't empty.
fn dotted(alloc: Global, text: &[u8]) -> Result<Text, AllocError>
    ensures { IfOk result (λ t. t ≡ text.now ++ 47 ∷ 46 ∷ []) }
{
    let mut whole = Text::from_bytes(alloc, text)?;
    whole.append(b"/.")?;
    Ok(whole)
}

// The path of a directory, without a final slash.
#[tactic(auto, using(gn_basics::proofs::Texts::bytes_eq_nil))]
pub(crate) fn directory(
    alloc: Global,
    current: &Path,
    text: &[u8],
) -> Result<Result<Path, PathFault>, AllocError>
    ensures { IfOk result (λ found. found ≡ directory_of current.now text.now) }
{
    if text.is_empty() {
        return path_meant(alloc, current, b".");
    }
    let whole = dotted(alloc, text)?;
    path_meant(alloc, current, whole.as_bytes())
}

fn named(alloc: Global, dir: Path, name: &[u8]) -> Result<Result<Named, LabelFault>, AllocError>
    ensures { IfOk result (λ found. found ≡ Ok (named dir name.now)) }
{
    let name = Text::from_bytes(alloc, name)?;
    Ok(Ok(Named { dir, name }))
}

// A directory and a name around a colon.
fn read_apart(
    alloc: Global,
    current: &Path,
    dir: &[u8],
    name: &[u8],
) -> Result<Result<Named, LabelFault>, AllocError>
    ensures { IfOk result (λ found. found ≡ named_apart current.now dir.now name.now) }
{
    if !(is_name(name) && starts_in_source(current, dir)) {
        return Ok(Err(LabelFault::BadLabel));
    }
    match directory(alloc, current, dir)? {
        Ok(dir) => named(alloc, dir, name),
        Err(fault) => Ok(Err(LabelFault::Path(fault))),
    }
}

// Whether a last part as it is written may end the directory of a wrong path.
fn may_be_last(written: &[u8]) -> bool
    ensures { result ≡ may_be_last written.now }
{
    is_name(written) || !leads_down(written)
}

fn fault_behind(written: &[u8], fault: PathFault) -> LabelFault
    ensures { result ≡ fault_behind written.now fault }
{
    if may_be_last(written) {
        LabelFault::Path(fault)
    } else {
        LabelFault::BadLabel
    }
}

// A directory whose last component is the name.
fn name_by_last(alloc: Global, dir: Path) -> Result<Result<Named, LabelFault>, AllocError>
    ensures { IfOk result (λ found. found ≡ named_by_last dir) }
{
    let name = part(alloc, dir.as_bytes(), PathPart::File)?;
    if is_name(name.as_bytes()) {
        Ok(Ok(Named { dir, name }))
    } else {
        Ok(Err(LabelFault::BadLabel))
    }
}

// The last part that is neither empty nor `.`.
fn written_last(text: &[u8]) -> &[u8]
    ensures { result.now ≡ written_last text.now }
{
    let mut last: &[u8] = b"";
    let mut rest = text;
    'walk: loop {
        let n = len_before(rest, b'/');
        let next = later(last, &rest[..n]);
        if n == rest.len() {
            return next;
        }
        last = next;
        rest = &rest[n + 1..];
    }
}

// The later of two parts, if it is neither empty nor `.`.
fn later<'a>(last: &'a [u8], part: &'a [u8]) -> &'a [u8]
    ensures { result.now ≡ last_or last.now (filter moves (part.now ∷ [])) }
{
    if stays_there(part) { last } else { part }
}

// A text without a colon.
fn read_whole(
    alloc: Global,
    current: &Path,
    text: &[u8],
) -> Result<Result<Named, LabelFault>, AllocError>
    ensures { IfOk result (λ found. found ≡ named_whole current.now text.now) }
{
    if !is_source(text) {
        return Ok(Err(LabelFault::BadLabel));
    }
    match directory(alloc, current, text)? {
        Ok(dir) => name_by_last(alloc, dir),
        Err(fault) => Ok(Err(fault_behind(written_last(text), fault))),
    }
}

// A label's text without a toolchain.
#[tactic(auto, unfolding(crate::specs::Reading::named_read))]
pub(crate) fn read_named(
    alloc: Global,
    current: &Path,
    text: &[u8],
) -> Result<Result<Named, LabelFault>, AllocError>
    ensures { IfOk result (λ found. found ≡ named_read current.now text.now) }
{
    let n = len_before(text, b':');
    if n < text.len() {
        read_apart(alloc, current, &text[..n], &text[n + 1..])
    } else {
        read_whole(alloc, current, text)
    }
}

fn label_under(part: Named, toolchain: Text) -> Label
    ensures { result ≡ label_under part toolchain }
{
    let Named { dir, name } = part;
    Label {
        dir,
        name,
        toolchain,
    }
}

fn label_of(
    alloc: Global,
    toolchain: &Text,
    parts: Result<(Named, Option<Text>), LabelFault>,
) -> Result<Result<Label, LabelFault>, AllocError>
    ensures { IfOk result (λ found. found ≡ label_of toolchain.now parts) }
{
    match parts {
        Ok((part, named)) => match named {
            Some(named) => Ok(Ok(label_under(part, named))),
            None => current_label(alloc, part, toolchain),
        },
        Err(fault) => Ok(Err(fault)),
    }
}

fn current_label(
    alloc: Global,
    part: Named,
    toolchain: &Text,
) -> Result<Result<Label, LabelFault>, AllocError>
    ensures { IfOk result (λ found. found ≡ Ok (label_under part toolchain.now)) }
{
    let toolchain = toolchain.copy(alloc)?;
    Ok(Ok(label_under(part, toolchain)))
}

/// What a text means as a label at a current directory, under a current toolchain: the label, or what keeps it from being one,
/// as `Label::read` says. The error is want of memory alone.
#[tactic(auto, unfolding(crate::specs::Reading::label_read))]
pub fn label_meant(
    alloc: Global,
    text: &[u8],
    current: &Path,
    toolchain: &Text,
) -> Result<Result<Label, LabelFault>, AllocError>
    ensures { IfOk result (λ found. found ≡ label_read current.now toolchain.now text.now) }
{
    let n = len_before(text, b'(');
    let part = read_named(alloc, current, &text[..n])?;
    let named = toolchain_in(alloc, current, text)?;
    label_of(alloc, toolchain, both(part, named))
}

fn label_error(fault: LabelFault) -> LabelError
    ensures { result ≡ label_error fault }
{
    match fault {
        LabelFault::BadLabel => LabelError::BadLabel,
        LabelFault::Path(PathFault::AboveRoot) => LabelError::Path(PathError::AboveRoot),
        LabelFault::Path(PathFault::BadPath) => LabelError::Path(PathError::BadPath),
    }
}

impl Label {
    /// The label that a text means at a current directory, under a current toolchain, which is meant
    /// where the text names none. The forms are `//dir`, which means `//dir:last`, `//dir:name`,
    /// `:name` and `dir:name`, each with an optional `(toolchain)` behind it. The first `(` begins the
    /// toolchain, which ends with the text and is itself such a text without parentheses; the first `:`
    /// ends the directory. `BadLabel` comes exactly where a form or a name is wrong, also in the
    /// toolchain, and else `Path` where a directory is no path. Of a wrong path without a colon the last
    /// part as it is written is judged as a name, empty parts and `.` aside.
    #[tactic(auto, using(crate::proofs::ReadingLemmas::meant_ok, crate::proofs::ReadingLemmas::meant_err))]
    pub fn read(
        alloc: Global,
        text: &[u8],
        current: &Path,
        toolchain: &Text,
    ) -> Result<Label, LabelError>
        ensures ok { IfOk result (λ l. label_read current.now toolchain.now text.now ≡ Ok l) }
        ensures err { IfErr result (λ e. (e ≡ LabelError.Memory) ⊎ (label_answered (label_read current.now toolchain.now text.now) ≡ Err e)) }
    {
        match label_meant(alloc, text, current, toolchain) {
            Ok(Ok(label)) => Ok(label),
            Ok(Err(fault)) => Err(label_error(fault)),
            Err(_) => Err(LabelError::Memory),
        }
    }
}
