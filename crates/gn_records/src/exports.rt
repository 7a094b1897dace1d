// What a compiled target gives to those that depend on it.

ghost use Rattle.std.specs.Prelude.{◌≡◌, IfOk};
ghost use Rattle.gn_rows.specs.declared.variable.Variable.TheVariants.{Libs, LibDirs};
ghost use Rattle.gn_records.specs.Around.{around, fields_of};
ghost use Rattle.gn_records.specs.Compiled.{only_where};
ghost use Rattle.gn_records.specs.Flags.{all_texts, all_seen_at};
ghost use Rattle.gn_records.specs.Records.{gives_libs, done_with, linked_with, exports_of};

use crate::context::Context;
use crate::done::{done_of, linked_of};
use crate::flags::{all_seen_at, all_texts};
use crate::keeping::beside;
use crate::output::{Output, names_for, tool_of_kind};
use crate::records::Exports;
use gn_define::Fields;
use gn_items::{Item, ItemKind};
use gn_paths::{Path, Text, Texts};
use gn_rows::Variable;
use std::alloc::{AllocError, Global};

// Whether the libraries of targets of the kind are linked by others.
fn gives_libs(kind: ItemKind) -> bool
    ensures { result ≡ gives_libs kind }
{
    matches!(kind, ItemKind::SourceSet | ItemKind::StaticLibrary)
}

// The libraries that are linked with the target.
fn libs_given(
    alloc: Global,
    kind: ItemKind,
    own: &Fields,
    configs: &[&Fields],
) -> Result<Texts, AllocError>
    ensures { IfOk result (λ list. list ≡ only_where (gives_libs kind) (all_texts Libs own.now (fields_of configs.now))) }
{
    if gives_libs(kind) {
        return all_texts(alloc, Variable::Libs, own, configs);
    }
    Ok(Texts::new(alloc))
}

// The directories of these libraries.
fn lib_dirs_given(
    alloc: Global,
    kind: ItemKind,
    build: &Path,
    own: &Fields,
    configs: &[&Fields],
) -> Result<Texts, AllocError>
    ensures { IfOk result (λ list. list ≡ only_where (gives_libs kind) (all_seen_at build.now LibDirs own.now (fields_of configs.now))) }
{
    if gives_libs(kind) {
        return all_seen_at(alloc, build, Variable::LibDirs, own, configs);
    }
    Ok(Texts::new(alloc))
}

// Its done file.
fn done_given(
    alloc: Global,
    context: &Context<'_>,
    item: &Item,
    output: &Output,
    outs: &Texts,
) -> Result<Text, AllocError>
    ensures { IfOk result (λ t. t ≡ done_with (around context.now) item.now output.now outs.now) }
{
    let names = names_for(context, item, output);
    let tool = tool_of_kind(context, item.kind);
    done_of(alloc, context, item, &names, tool, outs)
}

// What is linked of it.
fn linked_given(
    alloc: Global,
    context: &Context<'_>,
    item: &Item,
    output: &Output,
    outs: &Texts,
) -> Result<Text, AllocError>
    ensures { IfOk result (λ t. t ≡ linked_with (around context.now) item.now output.now outs.now) }
{
    let names = names_for(context, item, output);
    let tool = tool_of_kind(context, item.kind);
    linked_of(alloc, item.kind, &names, tool, outs)
}

// What a compiled target with this output gives, whose last line makes this.
pub(crate) fn exports_of(
    alloc: Global,
    context: &Context<'_>,
    item: &Item,
    configs: &[&Fields],
    output: &Output,
    outs: &Texts,
) -> Result<Exports, AllocError>
    ensures { IfOk result (λ e. e ≡ exports_of (around context.now) item.now (fields_of configs.now) output.now outs.now) }
{
    let fields = &item.fields;
    let done = done_given(alloc, context, item, output, outs)?;
    let files = beside(done, linked_given(alloc, context, item, output, outs))?;
    let libs = beside(files, libs_given(alloc, item.kind, fields, configs))?;
    let dirs = lib_dirs_given(alloc, item.kind, context.build, fields, configs);
    let (((done, linked), libs), lib_dirs) = beside(libs, dirs)?;
    Ok(Exports {
        done,
        linked,
        libs,
        lib_dirs,
    })
}
