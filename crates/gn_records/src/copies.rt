// Copies.

ghost use Rattle.std.specs.Prelude.{◌≡◌, [], ◌∷◌, ◌++◌, IfOk, OnOk, map};
ghost use Rattle.gn_rows.specs.declared.kinds.ToolName.TheVariants as tools;
ghost use Rattle.gn_rows.specs.declared.variable.Variable.TheVariants as variables;
ghost use Rattle.gn_define.specs.Fields.{field_at, paths_of};
ghost use Rattle.gn_records.specs.Around.{around};
ghost use Rattle.gn_records.specs.Outputs.{source_outs};
ghost use Rattle.gn_records.specs.Plain.{copied, copy_record};
ghost use Rattle.gn_records.specs.Steps.{where_had};

use crate::context::Context;
use crate::keeping::beside;
use crate::outputs::source_outs;
use crate::stamps::stamp_step;
use gn_items::Item;
use gn_paths::{Path, Texts};
use gn_rows::{ToolName, Variable};
use gn_writing::{Copied, CopiedFiles, CopyTarget, Dones, Written, tool_rule};
use std::alloc::{AllocError, Global};

// What is made of a source, where the toolchain has the tool that copies.
fn copied_outs(
    alloc: Global,
    context: &Context<'_>,
    item: &Item,
    source: &Path,
) -> Result<Texts, AllocError>
    ensures { IfOk result (λ outs. outs ≡ where_had (around context.now) tools.Copy (source_outs (around context.now) item.now source.now)) }
{
    if context.tools.has(ToolName::Copy.name()) {
        return source_outs(alloc, context, item, source);
    }
    Ok(Texts::new(alloc))
}

// A source that is copied.
fn copied(
    alloc: Global,
    context: &Context<'_>,
    item: &Item,
    source: &Path,
) -> Result<Copied, AllocError>
    ensures { IfOk result (λ file. file ≡ copied (around context.now) item.now source.now) }
{
    let outs = copied_outs(alloc, context, item, source)?;
    let (outs, source) = beside(outs, source.seen_from(alloc, context.build))?;
    Ok(Copied { source, outs })
}

// Puts a source that is copied behind others.
fn push_copied(
    alloc: Global,
    context: &Context<'_>,
    item: &Item,
    files: &mut Vec<Copied>,
    source: &Path,
) -> Result<(), AllocError>
    ensures { OnOk result (files.new.items ≡ files.old.items ++ copied (around context.now) item.now source.now ∷ []) }
{
    let file = copied(alloc, context, item, source)?;
    files.push(file)?;
    Ok(())
}

// The sources that are copied, in order.
fn all_copied(
    alloc: Global,
    context: &Context<'_>,
    item: &Item,
    sources: &[Path],
) -> Result<CopiedFiles, AllocError>
    ensures { IfOk result (λ files. files ≡ map (copied (around context.now) item.now) sources.now) }
{
    let mut files = Vec::with_capacity(alloc, sources.len())?;
    for source in sources {
        push_copied(alloc, context, item, &mut files, source)?;
    }
    Ok(CopiedFiles::from_vec(files))
}

// What is written of a copy: each source and what is made of it, and a stamp that stands for all of that.
pub(crate) fn copy(
    alloc: Global,
    context: &Context<'_>,
    item: &Item,
    dones: Dones,
) -> Result<Written, AllocError>
    ensures { IfOk result (λ w. w ≡ copy_record (around context.now) item.now dones) }
{
    let rule = beside(dones, tool_rule(alloc, context.prefix, ToolName::Copy))?;
    let stamp = beside(rule, stamp_step(alloc, context, &item.label))?;
    let files = all_copied(alloc, context, item, item.fields.paths(Variable::Sources));
    let (((dones, rule), stamp), files) = beside(stamp, files)?;
    Ok(Written::Copy(CopyTarget {
        rule,
        files,
        stamp,
        dones,
    }))
}
