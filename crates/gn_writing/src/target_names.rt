// The name of a target's output, and the files that stand for a target.

ghost use Rattle.std.specs.Prelude.{◌≡◌, ◌++◌, [], Some, IfOk, option_map};
ghost use Rattle.gn_writing.specs.TargetNames.{output_name, output_extension, file_beside, target_file};

use gn_labels::Label;
use gn_paths::{Path, Text, obj_directory};
use std::alloc::{AllocError, Global};

// Two texts as one.
fn joined(alloc: Global, first: &[u8], second: &[u8]) -> Result<Text, AllocError>
    ensures { IfOk result (λ t. t ≡ first.now ++ second.now) }
{
    let mut text = Text::from_bytes(alloc, first)?;
    text.append(second)?;
    Ok(text)
}

/// The name of an output: the target's own, behind the prefix of the tool unless it begins with that. A target that
/// overrides the prefix gives an empty one.
pub fn output_name(alloc: Global, name: &Text, prefix: &[u8]) -> Result<Text, AllocError>
    ensures { IfOk result (λ t. t ≡ output_name prefix.now name.now) }
{
    if name.as_bytes().starts_with(prefix) {
        return name.copy(alloc);
    }
    joined(alloc, prefix, name.as_bytes())
}

// The extension of a target, behind a dot unless it is empty.
fn dotted(alloc: Global, extension: &Text) -> Result<Text, AllocError>
    ensures { IfOk result (λ t. t ≡ output_extension [] (Some extension.now)) }
{
    if extension.is_empty() {
        return Ok(Text::new(alloc));
    }
    joined(alloc, b".", extension.as_bytes())
}

/// The extension of an output, with its dot: that of the target where it sets one, else that of the tool, which has its dot.
pub fn output_extension(
    alloc: Global,
    own: Option<&Text>,
    default: &[u8],
) -> Result<Text, AllocError>
    ensures { IfOk result (λ t. t ≡ output_extension default.now (option_map (λ e. e.now) own.entry)) }
{
    match own {
        Some(extension) => dotted(alloc, extension),
        None => Text::from_bytes(alloc, default),
    }
}

// A file of a directory, by its name and the ending of its kind.
fn file_beside(
    alloc: Global,
    directory: &Text,
    name: &Text,
    ending: &[u8],
) -> Result<Text, AllocError>
    ensures { IfOk result (λ t. t ≡ file_beside directory.now name.now ending.now) }
{
    let mut text = directory.copy(alloc)?;
    text.push(b'/')?;
    text.append(name.as_bytes())?;
    text.append(ending)?;
    Ok(text)
}

/// A file that stands for a target, as seen from the build directory: beside its objects, with the name of its label and an
/// ending, as `.stamp` or `.ninja`.
pub fn target_file(
    alloc: Global,
    build: &Path,
    out: &Path,
    label: &Label,
    ending: &[u8],
) -> Result<Text, AllocError>
    ensures { IfOk result (λ t. t ≡ target_file build.now out.now label.now ending.now) }
{
    let objects = obj_directory(alloc, out, &label.dir)?;
    let directory = objects.seen_from(alloc, build)?;
    file_beside(alloc, &directory, &label.name, ending)
}
