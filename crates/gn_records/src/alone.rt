// What a target makes, whatever it depends on.

ghost use Rattle.std.specs.Prelude.{◌≡◌, ◌++◌, IfOk, OnOk, map};
ghost use Rattle.std.specs.List.{flat_map};
ghost use Rattle.gn_rows.specs.declared.variable.Variable.TheVariants.{Sources};
ghost use Rattle.gn_define.specs.Fields.{field_at, paths_of};
ghost use Rattle.gn_writing.specs.Kinds.{target_blocks};
ghost use Rattle.gn_writing.specs.Lines.{made};
ghost use Rattle.gn_writing.specs.Outputs.{values_of};
ghost use Rattle.gn_records.specs.Alone.{no_dones, outs_for, compiled_outs, made_at};
ghost use Rattle.gn_records.specs.Around.{around};
ghost use Rattle.gn_records.specs.Compiled.{join_step};
ghost use Rattle.gn_records.specs.Output.{own_tool, values_for};
ghost use Rattle.gn_records.specs.Records.{plain_written};

use crate::context::Context;
use crate::expanding::source_of;
use crate::keeping::beside;
use crate::output::{Output, names_for, output_of, own_tool, tool_of_kind};
use crate::records::{is_plain, plain_written};
use crate::sources::add_outs_of_tool;
use crate::stamps::add_stamp;
use crate::texts::copies_of_lent;
use gn_items::Item;
use gn_paths::{Path, Texts};
use gn_rows::Variable;
use gn_writing::{Dones, OutputNames, SourceUse, Written, made_by, use_of};
use std::alloc::{AllocError, Global};

// No done files.
fn no_dones(alloc: Global) -> Dones
    ensures { result ≡ no_dones }
{
    Dones {
        deps: Texts::new(alloc),
        data_deps: Texts::new(alloc),
    }
}

// Copies of the left sides of the build lines of a target's file.
fn left_sides(alloc: Global, written: &Written) -> Result<Texts, AllocError>
    ensures { IfOk result (λ outs. outs ≡ made (target_blocks written.now)) }
{
    let outs = made_by(alloc, written)?;
    let copies = copies_of_lent(alloc, outs.as_slice());
    drop(outs);
    copies
}

// What a target makes that has no objects.
fn made_plain(alloc: Global, context: &Context<'_>, item: &Item) -> Result<Texts, AllocError>
    ensures { IfOk result (λ outs. outs ≡ made (target_blocks (plain_written item.now.kind (around context.now) item.now no_dones))) }
{
    let written = plain_written(alloc, context, item, no_dones(alloc))?;
    let outs = left_sides(alloc, &written);
    drop(written);
    outs
}

// Puts what is made of a source behind the others.
#[tactic(auto, unfolding(crate::specs::Alone::outs_for))]
fn add_source_outs(
    alloc: Global,
    outs: &mut Texts,
    context: &Context<'_>,
    item: &Item,
    names: &OutputNames<'_>,
    source: &Path,
) -> Result<(), AllocError>
    ensures { OnOk result (outs.new ≡ outs.old ++ outs_for (around context.now) item.now (values_of names.now) source.now) }
{
    match use_of(alloc, source)? {
        SourceUse::Built(tool) => {
            let source = source_of(context, item, source);
            add_outs_of_tool(alloc, outs, names, Some(source), context.tools.get(tool))
        }
        _ => Ok(()),
    }
}

// What is made of the sources of a target.
fn outs_of_sources(
    alloc: Global,
    context: &Context<'_>,
    item: &Item,
    names: &OutputNames<'_>,
) -> Result<Texts, AllocError>
    ensures { IfOk result (λ outs. outs ≡ flat_map (outs_for (around context.now) item.now (values_of names.now)) (paths_of (field_at item.now.fields Sources))) }
{
    let sources = item.fields.paths(Variable::Sources);
    let mut outs = Texts::new(alloc);
    for source in sources {
        add_source_outs(alloc, &mut outs, context, item, names, source)?;
    }
    Ok(outs)
}

// Puts what the last line of a target makes behind the others.
fn add_last(
    alloc: Global,
    outs: &mut Texts,
    context: &Context<'_>,
    item: &Item,
    names: &OutputNames<'_>,
) -> Result<(), AllocError>
    ensures { OnOk result (outs.new ≡ outs.old ++ (join_step (around context.now) item.now (values_of names.now) (own_tool item.now.kind)).outs) }
{
    match own_tool(item.kind) {
        Some(tool) => add_outs_of_tool(alloc, outs, names, None, context.tools.get(tool)),
        None => add_stamp(alloc, outs, context, &item.label),
    }
}

// What a compiled target makes with what it gives to the texts of tools.
fn made_by_names(
    alloc: Global,
    context: &Context<'_>,
    item: &Item,
    names: &OutputNames<'_>,
) -> Result<Texts, AllocError>
    ensures { IfOk result (λ outs. outs ≡ flat_map (outs_for (around context.now) item.now (values_of names.now)) (paths_of (field_at item.now.fields Sources))
        ++ (join_step (around context.now) item.now (values_of names.now) (own_tool item.now.kind)).outs) }
{
    let mut outs = outs_of_sources(alloc, context, item, names)?;
    let added = add_last(alloc, &mut outs, context, item, names);
    let (outs, ()) = beside(outs, added)?;
    Ok(outs)
}

// What a compiled target with this output makes.
fn made_with(
    alloc: Global,
    context: &Context<'_>,
    item: &Item,
    output: &Output,
) -> Result<Texts, AllocError>
    ensures { IfOk result (λ outs. outs ≡ flat_map (outs_for (around context.now) item.now (values_for (around context.now) item.now output.now)) (paths_of (field_at item.now.fields Sources))
        ++ (join_step (around context.now) item.now (values_for (around context.now) item.now output.now) (own_tool item.now.kind)).outs) }
{
    let names = names_for(context, item, output);
    made_by_names(alloc, context, item, &names)
}

// What a compiled target makes.
#[tactic(auto, unfolding(crate::specs::Alone::compiled_outs))]
fn made_compiled(alloc: Global, context: &Context<'_>, item: &Item) -> Result<Texts, AllocError>
    ensures { IfOk result (λ outs. outs ≡ compiled_outs (around context.now) item.now) }
{
    let output = output_of(alloc, context, item, tool_of_kind(context, item.kind))?;
    let outs = made_with(alloc, context, item, &output);
    drop(output);
    outs
}

/// What a target makes: the left sides of the build lines of its file, in order. No configuration and no dependency changes it.
#[tactic(auto, using(crate::proofs::MadeAlone::made_plain, crate::proofs::MadeAlone::made_compiled))]
pub fn made(alloc: Global, context: &Context<'_>, item: &Item) -> Result<Texts, AllocError>
    ensures { IfOk result (λ outs. outs ≡ made_at (around context.now) item.now) }
{
    if is_plain(item.kind) {
        return made_plain(alloc, context, item);
    }
    made_compiled(alloc, context, item)
}
