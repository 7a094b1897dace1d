// What a tool makes, by the texts of its outputs.

ghost use Rattle.std.specs.Prelude.{◌≡◌, ◌++◌, IfOk, OnOk, map, option_map};
ghost use Rattle.gn_substs.specs.Positions.{names_at};
ghost use Rattle.gn_substs.specs.Sources.{shows_paths, shown};
ghost use Rattle.gn_writing.specs.Outputs.{values_of, uses, shown_where, name_text, paths_meant, output_paths, tool_outputs};

use gn_paths::{Path, Text, Texts, path_meant};
use gn_substs::{Given, Position, Subst, Substitution};
use std::alloc::{AllocError, Global};

/// What a target gives to the texts of its tools' outputs.
#[derive(Clone, Copy)]
pub struct OutputNames<'a> {
    /// The build directory.
    pub build: &'a Path,
    /// The name of the output, with the tool's prefix.
    pub output_name: &'a Text,
    /// The extension of the output, with its dot.
    pub output_extension: &'a Text,
    /// The name in the target's label.
    pub label_name: &'a Text,
    /// The directory of the output; None where the text that stands for it means no path.
    pub output_dir: Option<&'a Path>,
    /// The root of the toolchain's outputs.
    pub root_out_dir: &'a Path,
    /// The root of the toolchain's generated files.
    pub root_gen_dir: &'a Path,
    /// The obj directory of the target's directory.
    pub target_out_dir: &'a Path,
    /// The gen directory of the target's directory.
    pub target_gen_dir: &'a Path,
}

/// Whether a substitution stands in a text.
pub fn uses(text: &Subst, substitution: Substitution) -> bool
    ensures { result ≡ uses substitution text.now }
{
    for piece in text.pieces.as_slice() {
        if piece.substitution.name() == substitution.name() {
            return true;
        }
    }
    false
}

// Whether a position has paths as they are seen from the build directory.
fn shows_paths(position: Position) -> bool
    ensures { result ≡ shows_paths position }
{
    matches!(position, Position::ForeachArgs | Position::ToolOutputs)
}

// A path as the position has it.
fn shown(alloc: Global, position: Position, build: &Path, path: &Path) -> Result<Text, AllocError>
    ensures { IfOk result (λ t. t ≡ shown position build.now path.now) }
{
    if shows_paths(position) {
        path.seen_from(alloc, build)
    } else {
        path.as_text().copy(alloc)
    }
}

// The directory of the output as the position has it.
fn shown_where(
    alloc: Global,
    position: Position,
    build: &Path,
    path: Option<&Path>,
) -> Result<Text, AllocError>
    ensures { IfOk result (λ t. t ≡ shown_where position build.now (option_map (λ p. p.now) path.entry)) }
{
    match path {
        Some(path) => shown(alloc, position, build, path),
        None => Ok(Text::new(alloc)),
    }
}

/// What stands for a substitution at a position of a tool: what the target gives, and what is given for the source to all others.
pub fn name_text(
    alloc: Global,
    position: Position,
    names: &OutputNames<'_>,
    given: &Given,
    substitution: Substitution,
) -> Result<Text, AllocError>
    ensures { IfOk result (λ t. t ≡ name_text position (values_of names.now) given.now substitution) }
{
    match substitution {
        Substitution::TargetOutputName => names.output_name.copy(alloc),
        Substitution::OutputExtension => names.output_extension.copy(alloc),
        Substitution::LabelName => names.label_name.copy(alloc),
        Substitution::OutputDir => shown_where(alloc, position, names.build, names.output_dir),
        Substitution::RootOutDir => shown(alloc, position, names.build, names.root_out_dir),
        Substitution::RootGenDir => shown(alloc, position, names.build, names.root_gen_dir),
        Substitution::TargetOutDir => shown(alloc, position, names.build, names.target_out_dir),
        Substitution::TargetGenDir => shown(alloc, position, names.build, names.target_gen_dir),
        _ => Text::from_bytes(alloc, given.text(substitution)),
    }
}

/// What stands at a position of a tool for a target and one of its sources: what the target gives, and what is given for
/// the source to the substitutions of a source.
pub fn given_for(
    alloc: Global,
    position: Position,
    names: &OutputNames<'_>,
    given: &Given,
) -> Result<Given, AllocError>
    ensures { IfOk result (λ g. g ≡ (position, map (name_text position (values_of names.now) given.now) (names_at position))) }
{
    let substitutions = position.names();
    let mut texts = Vec::with_capacity(alloc, substitutions.len())?;
    for substitution in substitutions {
        texts.push(name_text(alloc, position, names, given, *substitution)?)?;
    }
    Ok(Given::new(position, Texts::from_vec(texts)))
}

/// Puts the path that a text means, as seen from the build directory, behind the others, where it means one.
pub fn push_meant(
    alloc: Global,
    paths: &mut Texts,
    build: &Path,
    text: &[u8],
) -> Result<(), AllocError>
    ensures { OnOk result (paths.new ≡ paths.old ++ paths_meant build.now text.now) }
{
    match path_meant(alloc, build, text)? {
        Ok(path) => paths.push(path.seen_from(alloc, build)?),
        Err(_) => Ok(()),
    }
}

// Puts what a tool makes by one text behind the others.
fn push_output(
    alloc: Global,
    paths: &mut Texts,
    names: &OutputNames<'_>,
    given: &Given,
    text: &Subst,
) -> Result<(), AllocError>
    ensures { OnOk result (paths.new ≡ paths.old ++ output_paths (values_of names.now) given.now text.now) }
{
    if names.output_dir.is_none() && uses(text, Substitution::OutputDir) {
        return Ok(());
    }
    let expanded = text.expand(alloc, given)?;
    push_meant(alloc, paths, names.build, expanded.as_bytes())
}

/// What a tool makes by its texts, as paths seen from the build directory. A text that means no path is left out, and so is
/// one that uses a directory of outputs that is none.
pub fn tool_outputs(
    alloc: Global,
    names: &OutputNames<'_>,
    given: &Given,
    texts: &[Subst],
) -> Result<Texts, AllocError>
    ensures { IfOk result (λ paths. paths ≡ tool_outputs (values_of names.now) given.now texts.now) }
{
    let mut paths = Texts::new(alloc);
    for text in texts {
        push_output(alloc, &mut paths, names, given, text)?;
    }
    Ok(paths)
}
