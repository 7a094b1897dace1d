// The files of toolchains.

ghost use Rattle.std.specs.Prelude.{◌≡◌, ◌++◌, ◌∷◌, [], IfOk, OnOk, map, option_map};
ghost use Rattle.gn_ninja.specs.Format.{text_of_file};
ghost use Rattle.gn_records.specs.Around.{around};
ghost use Rattle.gn_writing.specs.Kinds.{toolchain_blocks};
ghost use Rattle.gn_out_files.specs.Files.{put_of};
ghost use Rattle.gn_files.specs.Files.{seen, target_path, tools_in, files_under, toolchain_path, toolchain_out};
ghost use Rattle.gn_files.specs.Known.{surroundings_in, known};

use crate::project::{Project, context_of, target_path, toolchain_path};
use crate::pushing::push_file;
use gn_labels::Label;
use gn_ninja::append_toolchain;
use gn_out_files::OutFile;
use gn_paths::{Text, Texts};
use gn_records::{Context, tools_of};
use gn_writing::Tool;
use std::alloc::{AllocError, Global};

// The path of the file of a target, as the file of its toolchain names it.
fn seen_path(alloc: Global, project: &Project<'_, '_>, target: &Label) -> Result<Text, AllocError>
    ensures { IfOk result (λ p. p ≡ seen (surroundings_in project.now) (target_path (surroundings_in project.now) (known project.now) target.now)) }
{
    let path = target_path(alloc, project, target)?;
    path.seen_from(alloc, project.surroundings.build)
}

// The files of the targets of a toolchain.
fn files_under(
    alloc: Global,
    project: &Project<'_, '_>,
    toolchain: &Text,
) -> Result<Texts, AllocError>
    ensures { IfOk result (λ files. files ≡ files_under (surroundings_in project.now) (known project.now) project.now.targets.now toolchain.now) }
{
    let mut files = Texts::new(alloc);
    for target in project.targets {
        if target.toolchain == *toolchain {
            files.push(seen_path(alloc, project, target)?)?;
        }
    }
    Ok(files)
}

// The tools of a toolchain as they are written.
fn tools_in(alloc: Global, context: Option<Context<'_>>) -> Result<Vec<Tool>, AllocError>
    ensures { IfOk result (λ tools. tools.items ≡ tools_in (option_map around context.entry)) }
{
    match context {
        None => Ok(Vec::new(alloc)),
        Some(context) => tools_of(alloc, &context),
    }
}

// The file of a toolchain.
fn toolchain_text(alloc: Global, tools: &[Tool], files: &Texts) -> Result<Text, AllocError>
    ensures { IfOk result (λ t. t ≡ text_of_file (toolchain_blocks tools.now files.now)) }
{
    let mut text = Vec::new(alloc);
    append_toolchain(alloc, &mut text, tools, files)?;
    Ok(Text::from_vec(text))
}

// Puts the file of a toolchain among the files.
fn add_toolchain(
    alloc: Global,
    out: &mut Vec<OutFile>,
    project: &Project<'_, '_>,
    toolchain: &Text,
) -> Result<(), AllocError>
    ensures { OnOk result (map put_of out.new.items ≡ map put_of out.old.items ++ toolchain_out (surroundings_in project.now) (known project.now) project.now.targets.now toolchain.now ∷ []) }
{
    let files = files_under(alloc, project, toolchain)?;
    let tools = tools_in(alloc, context_of(project, toolchain))?;
    let text = toolchain_text(alloc, tools.as_slice(), &files)?;
    let path = toolchain_path(alloc, project, toolchain)?;
    push_file(out, path, text)
}

// Puts the files of toolchains among the files, in their order.
fn add_toolchains(
    alloc: Global,
    out: &mut Vec<OutFile>,
    project: &Project<'_, '_>,
    toolchains: &[Text],
) -> Result<(), AllocError>
    ensures { OnOk result (map put_of out.new.items ≡ map put_of out.old.items ++ map (toolchain_out (surroundings_in project.now) (known project.now) project.now.targets.now) toolchains.now) }
{
    for toolchain in toolchains {
        add_toolchain(alloc, out, project, toolchain)?;
    }
    Ok(())
}

/// The files of toolchains, in their order.
pub(crate) fn toolchain_files(
    alloc: Global,
    project: &Project<'_, '_>,
    toolchains: &[Text],
) -> Result<Vec<OutFile>, AllocError>
    ensures { IfOk result (λ files. map put_of files.items ≡ map (toolchain_out (surroundings_in project.now) (known project.now) project.now.targets.now) toolchains.now) }
{
    let mut files = Vec::new(alloc);
    if let Err(error) = add_toolchains(alloc, &mut files, project, toolchains) {
        drop(files);
        return Err(error);
    }
    Ok(files)
}
