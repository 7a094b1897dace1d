// Targets whose sources are compiled.

ghost use Rattle.std.specs.Prelude.{◌≡◌, IfOk, option_map};
ghost use Rattle.gn_labels.specs.Labels.{printed};
ghost use Rattle.gn_paths.specs.Rebase.{seen_from};
ghost use Rattle.gn_records.specs.Around.{around, fields_of};
ghost use Rattle.gn_records.specs.Compiled.{is_linked, where_bound, label_texts, seen_if, output_texts, directories_of, own_sources, join_step, bindings_of};
ghost use Rattle.gn_records.specs.Flags.{link_flags_where};
ghost use Rattle.gn_records.specs.Output.{own_tool, tool_where, values_for};
ghost use Rattle.gn_records.specs.Records.{record_with, with_output, compiled_record};

use crate::context::Context;
use crate::exports::exports_of;
use crate::flags::compile_flags;
use crate::inherited::Inherited;
use crate::joining::{join_of, join_step};
use crate::keeping::beside;
use crate::linking::link_flags_where;
use crate::output::{Output, names_for, output_of, own_tool, tool_of_kind};
use crate::records::{Exports, Record};
use crate::sources::own_sources;
use gn_define::Fields;
use gn_items::{Item, ItemKind};
use gn_labels::Label;
use gn_paths::{Path, Text, Texts};
use gn_writing::{
    CompileFlags, Compiled, Directories, Dones, Join, LabelTexts, LinkFlags, OutputTexts,
    OwnSources, Step, Written,
};
use std::alloc::{AllocError, Global};

// Whether targets of the kind are linked.
fn is_linked(kind: ItemKind) -> bool
    ensures { result ≡ is_linked kind }
{
    matches!(
        kind,
        ItemKind::Executable | ItemKind::SharedLibrary | ItemKind::LoadableModule
    )
}

// The label without its toolchain, where that is bound.
fn bound_label(alloc: Global, is_bound: bool, label: &Label) -> Result<Option<Text>, AllocError>
    ensures { IfOk result (λ t. t ≡ where_bound is_bound (printed label.now.toolchain label.now)) }
{
    if is_bound {
        return Ok(Some(label.print(alloc, &label.toolchain)?));
    }
    Ok(None)
}

// How the target is called.
fn label_texts(
    alloc: Global,
    context: &Context<'_>,
    label: &Label,
) -> Result<LabelTexts, AllocError>
    ensures { IfOk result (λ texts. texts ≡ label_texts (around context.now) label.now) }
{
    let name = label.name.copy(alloc)?;
    let (name, printed) = beside(name, label.print(alloc, context.default))?;
    let bound = bound_label(alloc, context.bound.label_no_toolchain, label);
    let ((name, label), no_toolchain) = beside((name, printed), bound)?;
    Ok(LabelTexts {
        label,
        name,
        no_toolchain,
    })
}

// A directory as seen from the build directory; nothing where there is none.
fn seen_if(alloc: Global, build: &Path, path: Option<&Path>) -> Result<Text, AllocError>
    ensures { IfOk result (λ t. t ≡ seen_if build.now (option_map (λ p. p.now) path.entry)) }
{
    match path {
        Some(path) => path.seen_from(alloc, build),
        None => Ok(Text::new(alloc)),
    }
}

// The output.
fn output_texts(
    alloc: Global,
    context: &Context<'_>,
    output: &Output,
) -> Result<OutputTexts, AllocError>
    ensures { IfOk result (λ texts. texts ≡ output_texts (around context.now) output.now) }
{
    let directory = seen_if(alloc, context.build, output.directory.as_ref())?;
    let ends = beside(directory, output.extension.copy(alloc))?;
    let ((directory, extension), name) = beside(ends, output.name.copy(alloc))?;
    Ok(OutputTexts {
        directory,
        extension,
        name,
    })
}

// A directory as seen from the build directory, where it is bound.
fn bound_directory(
    alloc: Global,
    is_bound: bool,
    build: &Path,
    directory: &Path,
) -> Result<Option<Text>, AllocError>
    ensures { IfOk result (λ t. t ≡ where_bound is_bound (seen_from build.now directory.now)) }
{
    if is_bound {
        return Ok(Some(directory.seen_from(alloc, build)?));
    }
    Ok(None)
}

// The directories.
fn directories_of(
    alloc: Global,
    context: &Context<'_>,
    output: &Output,
) -> Result<Directories, AllocError>
    ensures { IfOk result (λ directories. directories ≡ directories_of (around context.now) output.now) }
{
    let bound = context.bound;
    let build = context.build;
    let own = &output.around;
    let root_out_dir = context.out.seen_from(alloc, build)?;
    let outs = beside(root_out_dir, own.objects.seen_from(alloc, build))?;
    let root = bound_directory(alloc, bound.root_gen_dir, build, context.generated);
    let roots = beside(outs, root)?;
    let target = bound_directory(alloc, bound.target_gen_dir, build, &own.generated);
    let made = beside(roots, target)?;
    let (((root_out_dir, target_out_dir), root_gen_dir), target_gen_dir) = made;
    Ok(Directories {
        root_gen_dir,
        root_out_dir,
        target_gen_dir,
        target_out_dir,
    })
}

// The line that joins the objects of the target.
fn step_of(
    alloc: Global,
    context: &Context<'_>,
    item: &Item,
    output: &Output,
) -> Result<Step, AllocError>
    ensures { IfOk result (λ step. step ≡ join_step (around context.now) item.now (values_for (around context.now) item.now output.now) (own_tool item.now.kind)) }
{
    let names = names_for(context, item, output);
    join_step(alloc, context, item, &names, own_tool(item.kind))
}

// What the target makes of its own sources.
fn sources_of(
    alloc: Global,
    context: &Context<'_>,
    item: &Item,
    output: &Output,
    hard: &Texts,
) -> Result<OwnSources, AllocError>
    ensures { IfOk result (λ s. s ≡ own_sources (around context.now) item.now (values_for (around context.now) item.now output.now) hard.now) }
{
    let names = names_for(context, item, output);
    own_sources(alloc, context, item, &names, hard)
}

// What the linker of the target binds.
fn linked(
    alloc: Global,
    context: &Context<'_>,
    item: &Item,
    configs: &[&Fields],
    inherited: &Inherited,
) -> Result<LinkFlags, AllocError>
    ensures { IfOk result (λ flags. flags ≡ link_flags_where (is_linked item.now.kind) context.now.build.now (tool_where (around context.now) (own_tool item.now.kind)) item.now.fields (fields_of configs.now) inherited.now) }
{
    let tool = tool_of_kind(context, item.kind);
    link_flags_where(
        alloc,
        is_linked(item.kind),
        context.build,
        tool,
        &item.fields,
        configs,
        inherited,
    )
}

// What a compiled target binds.
#[derive(Drop)]
struct Bindings {
    compile: CompileFlags,
    link: LinkFlags,
    names: LabelTexts,
    output: OutputTexts,
    directories: Directories,
}

// What a compiled target with this output binds.
fn bindings_of(
    alloc: Global,
    context: &Context<'_>,
    item: &Item,
    configs: &[&Fields],
    inherited: &Inherited,
    output: &Output,
) -> Result<Bindings, AllocError>
    ensures { IfOk result (λ b. b ≡ bindings_of (around context.now) item.now (fields_of configs.now) inherited.now output.now) }
{
    let names = label_texts(alloc, context, &item.label)?;
    let texts = beside(names, output_texts(alloc, context, output))?;
    let called = beside(texts, directories_of(alloc, context, output))?;
    let link = linked(alloc, context, item, configs, inherited);
    let linked = beside(called, link)?;
    let compile = compile_flags(alloc, context.build, &item.fields, configs);
    let ((((names, output), directories), link), compile) = beside(linked, compile)?;
    Ok(Bindings {
        compile,
        link,
        names,
        output,
        directories,
    })
}

// The record of these parts. It takes no memory.
fn record_with(bindings: Bindings, sources: OwnSources, join: Join, exports: Exports) -> Record
    ensures { result ≡ record_with bindings sources join exports }
{
    Record {
        written: Written::Compiled(Compiled {
            compile: bindings.compile,
            link: bindings.link,
            names: bindings.names,
            output: bindings.output,
            directories: bindings.directories,
            sources,
            join,
        }),
        exports,
    }
}

// The record of a compiled target with this output.
fn with_output(
    alloc: Global,
    context: &Context<'_>,
    item: &Item,
    configs: &[&Fields],
    inherited: &Inherited,
    dones: &Dones,
    hard: &Texts,
    output: &Output,
) -> Result<Record, AllocError>
    ensures { IfOk result (λ r. r ≡ with_output (around context.now) item.now (fields_of configs.now) inherited.now dones.now hard.now output.now) }
{
    let step = step_of(alloc, context, item, output)?;
    let exports = exports_of(alloc, context, item, configs, output, &step.outs);
    let (step, exports) = beside(step, exports)?;
    let sources = sources_of(alloc, context, item, output, hard);
    let ((step, exports), sources) = beside((step, exports), sources)?;
    let is_linked = is_linked(item.kind);
    let join = join_of(alloc, is_linked, step, dones, &sources.objects, inherited);
    let parts = beside((exports, sources), join)?;
    let bindings = bindings_of(alloc, context, item, configs, inherited, output);
    let (((exports, sources), join), bindings) = beside(parts, bindings)?;
    Ok(record_with(bindings, sources, join, exports))
}

// The record of a target whose sources are compiled: a source_set, a static_library, an executable, a shared_library or a
// loadable_module.
pub(crate) fn compiled(
    alloc: Global,
    context: &Context<'_>,
    item: &Item,
    configs: &[&Fields],
    inherited: &Inherited,
    dones: &Dones,
    hard: &Texts,
) -> Result<Record, AllocError>
    ensures { IfOk result (λ r. r ≡ compiled_record (around context.now) item.now (fields_of configs.now) inherited.now dones.now hard.now) }
{
    let output = output_of(alloc, context, item, tool_of_kind(context, item.kind))?;
    let record = with_output(
        alloc, context, item, configs, inherited, dones, hard, &output,
    );
    drop(output);
    record
}
