// Texts of tools, expanded for a target. Of what is given no more is made than a text has.

ghost use Rattle.std.specs.Prelude.{◌≡◌, ◌++◌, None, Some, IfOk, OnOk};
ghost use Rattle.gn_paths.specs.Directory.{directory_of, obj_directory_of};
ghost use Rattle.gn_paths.specs.Parts.{file_of, name_in};
ghost use Rattle.gn_paths.specs.Rebase.{seen_from};
ghost use Rattle.gn_substs.specs.declared.positions.Position.TheVariants.{ToolOutputs};
ghost use Rattle.gn_substs.specs.Expansions.{text_in, piece_with, expanded};
ghost use Rattle.gn_substs.specs.Names.{substitution_name};
ghost use Rattle.gn_substs.specs.Positions.{first_named};
ghost use Rattle.gn_writing.specs.Outputs.{values_of, name_text as text_meant, output_paths, tool_outputs};
ghost use Rattle.gn_records.specs.Around.{around};
ghost use Rattle.gn_records.specs.Expanding.{given_beside, given_by};
ghost use Rattle.gn_records.specs.Outputs.{for_source};

use crate::context::Context;
use crate::outputs::for_none;
use gn_items::Item;
use gn_paths::{Path, PathPart, Text, Texts, directory, obj_directory, part};
use gn_substs::{Around, Given, Position, Subst, SubstPiece, Substitution};
use gn_writing::{OutputNames, name_text, push_meant, uses};
use std::alloc::{AllocError, Global};

/// The source that a tool builds whose texts are expanded.
#[derive(Clone, Copy)]
pub struct ToolSource<'a> {
    /// The source.
    pub source: &'a Path,
    /// The directories that its substitutions depend on.
    pub around: Around<'a>,
}

/// What texts of a tool are expanded by.
#[derive(Clone, Copy)]
pub struct Expansion<'a> {
    /// Where the texts stand.
    pub position: Position,
    /// What the target gives.
    pub names: &'a OutputNames<'a>,
    /// The source that the tool builds, if it is for one.
    pub source: Option<ToolSource<'a>>,
}

/// A source of an item that a tool builds. It takes no memory.
pub fn source_of<'a>(context: &Context<'a>, item: &'a Item, source: &'a Path) -> ToolSource<'a>
    ensures { given_beside (Some result) ≡ for_source (around context.now) item.now ToolOutputs source.now }
{
    ToolSource {
        source,
        around: Around {
            target: &item.label.dir,
            build: context.build,
            out: context.out,
        },
    }
}

// The file of a source.
fn file_text(alloc: Global, source: &Path) -> Result<Text, AllocError>
    ensures { IfOk result (λ t. t ≡ file_of source.now) }
{
    part(alloc, source.as_bytes(), PathPart::File)
}

// The file of a source without its extension.
fn stem_text(alloc: Global, source: &Path) -> Result<Text, AllocError>
    ensures { IfOk result (λ t. t ≡ name_in (file_of source.now)) }
{
    part(alloc, source.as_bytes(), PathPart::Name)
}

// The obj directory of a source's directory, as seen from the build directory.
fn out_text(alloc: Global, at: &ToolSource<'_>) -> Result<Text, AllocError>
    ensures { IfOk result (λ t. t ≡ seen_from at.now.around.build.now (obj_directory_of at.now.around.out.now (directory_of at.now.source.now))) }
{
    let directory = directory(alloc, at.source)?;
    let made = obj_directory(alloc, at.around.out, &directory);
    drop(directory);
    let made = made?;
    let seen = made.seen_from(alloc, at.around.build);
    drop(made);
    seen
}

// What stands for a substitution of a source, by all that is given of the source.
fn given_text(
    alloc: Global,
    at: &ToolSource<'_>,
    substitution: Substitution,
) -> Result<Text, AllocError>
    ensures { IfOk result (λ t. t ≡ text_in (given_beside (Some at.now)) substitution) }
{
    let given = Given::of_source(alloc, Position::ToolOutputs, at.source, &at.around)?;
    let text = Text::from_bytes(alloc, given.text(substitution));
    drop(given);
    text
}

// What stands for a substitution of a source. The texts of tools mostly have the three that are made by themselves.
fn source_text(
    alloc: Global,
    at: &ToolSource<'_>,
    substitution: Substitution,
) -> Result<Text, AllocError>
    ensures { IfOk result (λ t. t ≡ text_in (given_beside (Some at.now)) substitution) }
{
    match substitution {
        Substitution::SourceFilePart => file_text(alloc, at.source),
        Substitution::SourceNamePart => stem_text(alloc, at.source),
        Substitution::SourceOutDir => out_text(alloc, at),
        _ => given_text(alloc, at, substitution),
    }
}

// The same where there may be no source.
fn beside_text(
    alloc: Global,
    source: Option<ToolSource<'_>>,
    substitution: Substitution,
) -> Result<Text, AllocError>
    ensures { IfOk result (λ t. t ≡ text_in (given_beside source.entry) substitution) }
{
    match source {
        Some(at) => source_text(alloc, &at, substitution),
        None => Ok(Text::new(alloc)),
    }
}

// What a target gives for a substitution, or the source to those that are none of the target's.
fn text_of(
    alloc: Global,
    by: &Expansion<'_>,
    substitution: Substitution,
) -> Result<Text, AllocError>
    ensures { IfOk result (λ t. t ≡ text_meant by.now.position (values_of by.now.names.now) (given_beside by.now.source) substitution) }
{
    match substitution {
        Substitution::TargetOutputName
        | Substitution::OutputExtension
        | Substitution::LabelName
        | Substitution::OutputDir
        | Substitution::RootOutDir
        | Substitution::RootGenDir
        | Substitution::TargetOutDir
        | Substitution::TargetGenDir => target_text(alloc, by, substitution),
        _ => beside_text(alloc, by.source, substitution),
    }
}

// What a target gives for a substitution, beside no source.
fn target_text(
    alloc: Global,
    by: &Expansion<'_>,
    substitution: Substitution,
) -> Result<Text, AllocError>
    ensures { IfOk result (λ t. t ≡ text_meant by.now.position (values_of by.now.names.now) (given_beside None) substitution) }
{
    let none = for_none(alloc);
    let text = name_text(alloc, by.position, by.names, &none, substitution);
    drop(none);
    text
}

// The first of some substitutions that has the name of another.
fn named(names: &[Substitution], substitution: Substitution) -> Option<Substitution>
    ensures { result ≡ first_named names.now (substitution_name substitution) }
{
    for name in names {
        if name.name() == substitution.name() {
            return Some(*name);
        }
    }
    None
}

// What stands for a substitution; nothing for one that doesn't stand at the position.
#[tactic(auto, using(crate::proofs::Expanded::text_at))]
fn text_at(
    alloc: Global,
    by: &Expansion<'_>,
    substitution: Substitution,
) -> Result<Text, AllocError>
    ensures { IfOk result (λ t. t ≡ text_in (given_by by.now) substitution) }
{
    match named(by.position.names(), substitution) {
        Some(name) => text_of(alloc, by, name),
        None => Ok(Text::new(alloc)),
    }
}

// Puts the bytes of a piece, and what stands for its substitution, at the end.
fn append_piece(
    alloc: Global,
    text: &mut Text,
    by: &Expansion<'_>,
    piece: &SubstPiece,
) -> Result<(), AllocError>
    ensures { OnOk result (text.new ≡ text.old ++ piece_with (text_in (given_by by.now)) piece.now) }
{
    text.append(piece.before.as_bytes())?;
    let word = text_at(alloc, by, piece.substitution)?;
    let added = text.append(word.as_bytes());
    drop(word);
    added
}

// Room for a text as tools usually have it, so that it isn't moved while it grows.
const USUAL_BYTES: usize = 64;

/// A text of a tool with what is given in place of each substitution.
pub fn expanded_by(alloc: Global, by: &Expansion<'_>, text: &Subst) -> Result<Text, AllocError>
    ensures { IfOk result (λ t. t ≡ expanded (given_by by.now) text.now) }
{
    let mut made = Text::with_capacity(alloc, USUAL_BYTES)?;
    for piece in text.pieces.as_slice() {
        append_piece(alloc, &mut made, by, piece)?;
    }
    made.append(text.last.as_bytes())?;
    Ok(made)
}

// Puts what a tool makes by one text behind the others.
fn push_output(
    alloc: Global,
    paths: &mut Texts,
    by: &Expansion<'_>,
    text: &Subst,
) -> Result<(), AllocError>
    ensures { OnOk result (paths.new ≡ paths.old ++ output_paths (values_of by.now.names.now) (given_by by.now) text.now) }
{
    if by.names.output_dir.is_none() && uses(text, Substitution::OutputDir) {
        return Ok(());
    }
    let expanded = expanded_by(alloc, by, text)?;
    let pushed = push_meant(alloc, paths, by.names.build, expanded.as_bytes());
    drop(expanded);
    pushed
}

// Puts what a tool makes by its texts behind the others, as `tool_outputs` says.
pub(crate) fn add_outputs(
    alloc: Global,
    paths: &mut Texts,
    by: &Expansion<'_>,
    texts: &[Subst],
) -> Result<(), AllocError>
    ensures { OnOk result (paths.new ≡ paths.old ++ tool_outputs (values_of by.now.names.now) (given_by by.now) texts.now) }
{
    for text in texts {
        push_output(alloc, paths, by, text)?;
    }
    Ok(())
}
