// What the substitutions of a source are.

ghost use Rattle.std.specs.Prelude.{◌≡◌, map, IfOk};
ghost use Rattle.gn_substs.specs.Positions.{names_at};
ghost use Rattle.gn_paths.specs.Components.{two_slashes};
ghost use Rattle.gn_paths.specs.Directory.{directory_of, obj_directory_of, gen_directory_of};
ghost use Rattle.gn_paths.specs.Rebase.{seen_from};
ghost use Rattle.gn_substs.specs.Sources.{shows_paths, shown, source_text};

use crate::given::Given;
use crate::names::Substitution;
use crate::positions::Position;
use gn_paths::{Path, PathPart, Text, Texts, directory, gen_directory, obj_directory, part};
use std::alloc::{AllocError, Global};

/// The directories that the substitutions of a source depend on.
#[derive(Clone, Copy)]
pub struct Around<'a> {
    /// The directory of the target that has the source; where there is no target any directory.
    pub target: &'a Path,
    /// The build directory, from which paths are seen.
    pub build: &'a Path,
    /// The output directory of the toolchain, below which the obj and gen directories stand.
    pub out: &'a Path,
}

// Whether a position has paths as they are seen from the build directory.
fn shows_paths(position: Position) -> bool
    ensures { result ≡ shows_paths position }
{
    matches!(position, Position::ForeachArgs | Position::ToolOutputs)
}

// A path as the position has it.
fn shown(alloc: Global, position: Position, build: &Path, path: &Path) -> Result<Text, AllocError>
    ensures { IfOk result (λ t. t ≡ shown position build.now path.now) }
{
    if shows_paths(position) {
        path.seen_from(alloc, build)
    } else {
        path.as_text().copy(alloc)
    }
}

// The text of a substitution of a source at a position; nothing for one that isn't of a source.
fn source_text(
    alloc: Global,
    position: Position,
    source: &Path,
    around: &Around<'_>,
    substitution: Substitution,
) -> Result<Text, AllocError>
    ensures { IfOk result (λ t. t ≡ source_text position around.now.target.now around.now.build.now around.now.out.now source.now substitution) }
{
    match substitution {
        Substitution::Source => shown(alloc, position, around.build, source),
        Substitution::SourceFilePart => part(alloc, source.as_bytes(), PathPart::File),
        Substitution::SourceNamePart => part(alloc, source.as_bytes(), PathPart::Name),
        Substitution::SourceDir => dir_text(alloc, position, around.build, source),
        Substitution::SourceRootRelativeDir => root_relative(alloc, source),
        Substitution::SourceGenDir => gen_text(alloc, position, source, around),
        Substitution::SourceOutDir => out_text(alloc, position, source, around),
        Substitution::SourceTargetRelative => source.seen_from(alloc, around.target),
        _ => Ok(Text::new(alloc)),
    }
}

fn dir_text(
    alloc: Global,
    position: Position,
    build: &Path,
    source: &Path,
) -> Result<Text, AllocError>
    ensures { IfOk result (λ t. t ≡ shown position build.now (directory_of source.now)) }
{
    let directory = directory(alloc, source)?;
    shown(alloc, position, build, &directory)
}

fn root_relative(alloc: Global, source: &Path) -> Result<Text, AllocError>
    ensures { IfOk result (λ t. t ≡ seen_from two_slashes (directory_of source.now)) }
{
    let root = Path::root(alloc)?;
    let directory = directory(alloc, source)?;
    directory.seen_from(alloc, &root)
}

fn gen_text(
    alloc: Global,
    position: Position,
    source: &Path,
    around: &Around<'_>,
) -> Result<Text, AllocError>
    ensures { IfOk result (λ t. t ≡ shown position around.now.build.now (gen_directory_of around.now.out.now (directory_of source.now))) }
{
    let directory = directory(alloc, source)?;
    let made = gen_directory(alloc, around.out, &directory)?;
    shown(alloc, position, around.build, &made)
}

fn out_text(
    alloc: Global,
    position: Position,
    source: &Path,
    around: &Around<'_>,
) -> Result<Text, AllocError>
    ensures { IfOk result (λ t. t ≡ shown position around.now.build.now (obj_directory_of around.now.out.now (directory_of source.now))) }
{
    let directory = directory(alloc, source)?;
    let made = obj_directory(alloc, around.out, &directory)?;
    shown(alloc, position, around.build, &made)
}

impl Given {
    /// What stands at a position for a source: its own substitutions, and nothing for those of a target or of a tool.
    pub fn of_source(
        alloc: Global,
        position: Position,
        source: &Path,
        around: &Around<'_>,
    ) -> Result<Given, AllocError>
        ensures { IfOk result (λ g. g ≡ (position, map (source_text position around.now.target.now around.now.build.now around.now.out.now source.now) (names_at position))) }
    {
        let names = position.names();
        let mut texts = Vec::with_capacity(alloc, names.len())?;
        for name in names {
            texts.push(source_text(alloc, position, source, around, *name)?)?;
        }
        Ok(Given::new(position, Texts::from_vec(texts)))
    }
}
