// How the output of a compiled target is called.

ghost use Rattle.std.specs.Prelude.{◌≡◌, IfOk, option_map, None};
ghost use Rattle.gn_paths.specs.Resolve.{path_meant};
ghost use Rattle.gn_substs.specs.declared.positions.Position.TheVariants.{ToolDefaultOutputDir};
ghost use Rattle.gn_substs.specs.Expansions.{expanded};
ghost use Rattle.gn_records.specs.Around.{around};
ghost use Rattle.gn_records.specs.Actions.{first_of};
ghost use Rattle.gn_records.specs.Flags.{first_or};
ghost use Rattle.gn_records.specs.Output.{own_tool, tool_where, prefix_of, name_of_output, extension_of_output, own_directories, values_with, tool_given, path_if, default_directory, substs_of_tool, directory_of_output, output_of, values_for};
ghost use Rattle.gn_records.specs.Outputs.{for_none};
ghost use Rattle.gn_writing.specs.Outputs.{values_of};

use crate::context::Context;
use crate::keeping::beside;
use crate::linking::text_of_tool;
use crate::outputs::{for_none, meant_path};
use gn_items::{Item, ItemKind, Tool};
use gn_paths::{Path, Text, gen_directory, obj_directory};
use gn_rows::{ToolName, Variable};
use gn_substs::{Given, Position, Subst};
use gn_writing::{OutputNames, given_for, output_extension, output_name};
use std::alloc::{AllocError, Global};

/// How an output is called, and where it stands.
#[derive(Drop)]
pub struct Output {
    /// Its name: what the target says, or else its own, behind the prefix of the tool.
    pub name: Text,
    /// Its extension, with a dot.
    pub extension: Text,
    /// Its directory; None where the text that stands for it means no path.
    pub directory: Option<Path>,
    /// The directories of the target.
    pub around: OwnDirectories,
}

/// The directories in which files of a target stand.
#[derive(Drop)]
pub struct OwnDirectories {
    /// Its obj directory.
    pub objects: Path,
    /// Its gen directory.
    pub generated: Path,
}

/// The tool of a kind that makes its output; the others have none. It takes no memory.
pub fn own_tool(kind: ItemKind) -> Option<ToolName>
    ensures { result ≡ own_tool kind }
{
    match kind {
        ItemKind::StaticLibrary => Some(ToolName::Alink),
        ItemKind::Executable => Some(ToolName::Link),
        ItemKind::SharedLibrary => Some(ToolName::Solink),
        ItemKind::LoadableModule => Some(ToolName::SolinkModule),
        _ => None,
    }
}

/// The tool of a kind that makes its output, where the toolchain has it. It takes no memory.
pub fn tool_of_kind<'a>(context: &Context<'a>, kind: ItemKind) -> Option<&'a Tool>
    ensures { option_map (λ t. t.now) result ≡ tool_where (around context.now) (own_tool kind) }
{
    match own_tool(kind) {
        Some(tool) => context.tools.get(tool),
        None => None,
    }
}

// The first text of a list, and else another.
fn first_or<'a>(texts: &'a [Text], other: &'a Text) -> &'a Text
    ensures { result.now ≡ first_or other.now texts.now }
{
    match texts {
        [text, ..] => text,
        [] => other,
    }
}

// The prefix of the tool, unless the target overrides it.
fn prefix_of<'a>(item: &Item, tool: Option<&'a Tool>) -> &'a [u8]
    ensures { result.now ≡ prefix_of item.now (option_map (λ t. t.now) tool.entry) }
{
    match item.fields.boolean(Variable::OutputPrefixOverride) {
        Some(true) => b"",
        _ => text_of_tool(tool, Variable::OutputPrefix),
    }
}

// The name of the output.
fn name_of_output(alloc: Global, item: &Item, tool: Option<&Tool>) -> Result<Text, AllocError>
    ensures { IfOk result (λ t. t ≡ name_of_output item.now (option_map (λ t. t.now) tool.entry)) }
{
    let name = first_or(item.fields.texts(Variable::OutputName), &item.label.name);
    output_name(alloc, name, prefix_of(item, tool))
}

// The first text of a list, where there is one.
fn first_of(texts: &[Text]) -> Option<&Text>
    ensures { option_map (λ t. t.now) result ≡ first_of texts.now }
{
    match texts {
        [text, ..] => Some(text),
        [] => None,
    }
}

// The extension of the output.
fn extension_of_output(alloc: Global, item: &Item, tool: Option<&Tool>) -> Result<Text, AllocError>
    ensures { IfOk result (λ t. t ≡ extension_of_output item.now (option_map (λ t. t.now) tool.entry)) }
{
    let default = text_of_tool(tool, Variable::DefaultOutputExtension);
    let own = first_of(item.fields.texts(Variable::OutputExtension));
    output_extension(alloc, own, default)
}

// The obj and the gen directory of the target's directory.
fn own_directories(
    alloc: Global,
    context: &Context<'_>,
    item: &Item,
) -> Result<OwnDirectories, AllocError>
    ensures { IfOk result (λ d. d ≡ own_directories (around context.now) item.now) }
{
    let objects = obj_directory(alloc, context.out, &item.label.dir)?;
    let generated = gen_directory(alloc, context.out, &item.label.dir);
    let (objects, generated) = beside(objects, generated)?;
    Ok(OwnDirectories { objects, generated })
}

// What a target gives at a position of a tool beside no source.
pub(crate) fn given_alone(
    alloc: Global,
    position: Position,
    names: &OutputNames<'_>,
) -> Result<Given, AllocError>
    ensures { IfOk result (λ given. given ≡ tool_given position (values_of names.now) for_none) }
{
    let none = for_none(alloc);
    let given = given_for(alloc, position, names, &none);
    drop(none);
    given
}

// The directory that a tool's text stands for, where it stands for one.
fn meant_directory(
    alloc: Global,
    names: &OutputNames<'_>,
    text: &Subst,
) -> Result<Option<Path>, AllocError>
    ensures { IfOk result (λ d. d ≡ path_if (path_meant names.now.build.now (expanded (tool_given ToolDefaultOutputDir (values_of names.now) for_none) text.now))) }
{
    let given = given_alone(alloc, Position::ToolDefaultOutputDir, names)?;
    let meant = meant_path(alloc, names.build, &given, text);
    drop(given);
    match meant? {
        Ok(path) => Ok(Some(path)),
        Err(_) => Ok(None),
    }
}

/// The texts of a variable of a tool; none where there is no tool. It takes no memory.
pub fn substs_of_tool<'a>(tool: Option<&'a Tool>, variable: Variable) -> &'a [Subst]
    ensures { result.now ≡ substs_of_tool variable (option_map (λ t. t.now) tool.entry) }
{
    match tool {
        Some(tool) => tool.fields.substs(variable),
        None => &[],
    }
}

// What a target gives to the text for the default directory of a tool's outputs.
fn names_before<'a>(
    context: &Context<'a>,
    item: &'a Item,
    own: &'a OwnDirectories,
    name: &'a Text,
    extension: &'a Text,
) -> OutputNames<'a>
    ensures { values_of result ≡ values_with (around context.now) item.now own.now name.now extension.now None }
{
    OutputNames {
        build: context.build,
        output_name: name,
        output_extension: extension,
        label_name: &item.label.name,
        output_dir: None,
        root_out_dir: context.out,
        root_gen_dir: context.generated,
        target_out_dir: &own.objects,
        target_gen_dir: &own.generated,
    }
}

// The directory that the first of a tool's texts stands for, and else the root of the toolchain's outputs.
fn default_directory(
    alloc: Global,
    names: &OutputNames<'_>,
    texts: &[Subst],
) -> Result<Option<Path>, AllocError>
    ensures { IfOk result (λ d. d ≡ default_directory (values_of names.now) texts.now) }
{
    match texts {
        [text, ..] => meant_directory(alloc, names, text),
        [] => Ok(Some(names.root_out_dir.copy(alloc)?)),
    }
}

// The directory of the output.
fn directory_of_output(
    alloc: Global,
    context: &Context<'_>,
    item: &Item,
    tool: Option<&Tool>,
    own: &OwnDirectories,
    name: &Text,
    extension: &Text,
) -> Result<Option<Path>, AllocError>
    ensures { IfOk result (λ d. d ≡ directory_of_output (around context.now) item.now (option_map (λ t. t.now) tool.entry) own.now name.now extension.now) }
{
    match item.fields.paths(Variable::OutputDir) {
        [path, ..] => Ok(Some(path.copy(alloc)?)),
        [] => default_directory(
            alloc,
            &names_before(context, item, own, name, extension),
            substs_of_tool(tool, Variable::DefaultOutputDir),
        ),
    }
}

/// How the output of a target is called whose kind has this tool, and where it stands.
pub fn output_of(
    alloc: Global,
    context: &Context<'_>,
    item: &Item,
    tool: Option<&Tool>,
) -> Result<Output, AllocError>
    ensures { IfOk result (λ o. o ≡ output_of (around context.now) item.now (option_map (λ t. t.now) tool.entry)) }
{
    let around = own_directories(alloc, context, item)?;
    let (around, name) = beside(around, name_of_output(alloc, item, tool))?;
    let called = beside((around, name), extension_of_output(alloc, item, tool))?;
    let ((around, name), extension) = called;
    let directory = directory_of_output(alloc, context, item, tool, &around, &name, &extension);
    let called = beside(((around, name), extension), directory)?;
    let (((around, name), extension), directory) = called;
    Ok(Output {
        name,
        extension,
        directory,
        around,
    })
}

/// What a target with this output gives to the texts of tools. It takes no memory.
pub fn names_for<'a>(context: &Context<'a>, item: &'a Item, output: &'a Output) -> OutputNames<'a>
    ensures { values_of result ≡ values_for (around context.now) item.now output.now }
{
    OutputNames {
        build: context.build,
        output_name: &output.name,
        output_extension: &output.extension,
        label_name: &item.label.name,
        output_dir: output.directory.as_ref(),
        root_out_dir: context.out,
        root_gen_dir: context.generated,
        target_out_dir: &output.around.objects,
        target_gen_dir: &output.around.generated,
    }
}
