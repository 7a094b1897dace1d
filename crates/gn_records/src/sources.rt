// What a compiled target makes of its own sources.

ghost use Rattle.std.specs.Prelude.{◌≡◌, [], ◌∷◌, ◌++◌, IfOk, OnOk, option_map};
ghost use Rattle.std.specs.List.{flat_map};
ghost use Rattle.gn_paths.specs.Parts.{file_of, name_in};
ghost use Rattle.gn_rows.specs.declared.variable.Variable.TheVariants as variables;
ghost use Rattle.gn_define.specs.Fields.{field_at, paths_of};
ghost use Rattle.gn_writing.specs.Outputs.{values_of};
ghost use Rattle.gn_records.specs.Around.{around};
ghost use Rattle.gn_records.specs.Compiled.{outs_of_tool, unit_of, first_alone, units_used, objects_used, units_for, objects_for, own_sources};
ghost use Rattle.gn_records.specs.Expanding.{given_beside};

use crate::context::Context;
use crate::expanding::{Expansion, ToolSource, add_outputs, source_of};
use crate::keeping::beside;
use crate::paths::paths_at;
use gn_items::{Item, Tool};
use gn_paths::{Path, PathPart, Texts, part};
use gn_rows::{ToolName, Variable};
use gn_substs::Position;
use gn_writing::{OutputNames, OwnSources, SourceUse, Unit, Units, tool_rule, use_of};
use std::alloc::{AllocError, Global};

// Puts what a tool makes by the texts of its outputs behind the others.
fn add_outs_by(
    alloc: Global,
    outs: &mut Texts,
    names: &OutputNames<'_>,
    source: Option<ToolSource<'_>>,
    tool: &Tool,
) -> Result<(), AllocError>
    ensures { OnOk result (outs.new ≡ outs.old ++ outs_of_tool (values_of names.now) (given_beside source.entry) (Some tool.now)) }
{
    let position = Position::ToolOutputs;
    let by = Expansion {
        position,
        names,
        source,
    };
    add_outputs(alloc, outs, &by, tool.fields.substs(Variable::Outputs))
}

// Puts what a tool makes by the texts of its outputs behind the others; nothing where the toolchain lacks it.
pub(crate) fn add_outs_of_tool(
    alloc: Global,
    outs: &mut Texts,
    names: &OutputNames<'_>,
    source: Option<ToolSource<'_>>,
    tool: Option<&Tool>,
) -> Result<(), AllocError>
    ensures { OnOk result (outs.new ≡ outs.old ++ outs_of_tool (values_of names.now) (given_beside source.entry) (option_map (λ t. t.now) tool.entry)) }
{
    match tool {
        Some(tool) => add_outs_by(alloc, outs, names, source, tool),
        None => Ok(()),
    }
}

// What a tool makes by the texts of its outputs; nothing where the toolchain lacks it.
pub(crate) fn outs_of_tool(
    alloc: Global,
    names: &OutputNames<'_>,
    source: Option<ToolSource<'_>>,
    tool: Option<&Tool>,
) -> Result<Texts, AllocError>
    ensures { IfOk result (λ outs. outs ≡ outs_of_tool (values_of names.now) (given_beside source.entry) (option_map (λ t. t.now) tool.entry)) }
{
    let mut outs = Texts::new(alloc);
    let added = add_outs_of_tool(alloc, &mut outs, names, source, tool);
    let (outs, ()) = beside(outs, added)?;
    Ok(outs)
}

// What a tool makes of a source.
fn outs_of_source(
    alloc: Global,
    context: &Context<'_>,
    item: &Item,
    names: &OutputNames<'_>,
    tool: ToolName,
    source: &Path,
) -> Result<Texts, AllocError>
    ensures { IfOk result (λ outs. outs ≡ (unit_of (around context.now) item.now (values_of names.now) tool source.now).outs) }
{
    let source = source_of(context, item, source);
    outs_of_tool(alloc, names, Some(source), context.tools.get(tool))
}

// A source that a tool builds.
fn unit_of(
    alloc: Global,
    context: &Context<'_>,
    item: &Item,
    names: &OutputNames<'_>,
    tool: ToolName,
    source: &Path,
) -> Result<Unit, AllocError>
    ensures { IfOk result (λ unit. unit ≡ unit_of (around context.now) item.now (values_of names.now) tool source.now) }
{
    let file_part = part(alloc, source.as_bytes(), PathPart::File)?;
    let parts = beside(file_part, part(alloc, source.as_bytes(), PathPart::Name))?;
    let rule = beside(parts, tool_rule(alloc, context.prefix, tool))?;
    let outs = outs_of_source(alloc, context, item, names, tool, source);
    let outs = beside(rule, outs)?;
    let made = beside(outs, source.seen_from(alloc, context.build))?;
    let ((((file_part, name_part), rule), outs), source) = made;
    Ok(Unit {
        rule,
        source,
        file_part,
        name_part,
        outs,
    })
}

// Puts the first of some paths behind others.
fn add_first(alloc: Global, list: &mut Texts, paths: &Texts) -> Result<(), AllocError>
    ensures { OnOk result (list.new ≡ list.old ++ first_alone paths.now) }
{
    match paths.as_slice() {
        [path, ..] => list.push(path.copy(alloc)?),
        [] => Ok(()),
    }
}

// Puts a source that is built, and its object, behind others.
fn add_unit(
    alloc: Global,
    units: &mut Vec<Unit>,
    objects: &mut Texts,
    unit: Unit,
) -> Result<(), AllocError>
    ensures units { OnOk result (units.new.items ≡ units.old.items ++ unit ∷ []) }
    ensures objects { OnOk result (objects.new ≡ objects.old ++ first_alone unit.outs) }
{
    add_first(alloc, objects, &unit.outs)?;
    units.push(unit)?;
    Ok(())
}

// Puts what becomes of a source behind others.
#[tactic(auto, unfolding(crate::specs::Compiled::units_for, crate::specs::Compiled::objects_for))]
fn add_source(
    alloc: Global,
    context: &Context<'_>,
    item: &Item,
    names: &OutputNames<'_>,
    units: &mut Vec<Unit>,
    objects: &mut Texts,
    source: &Path,
) -> Result<(), AllocError>
    ensures units { OnOk result (units.new.items ≡ units.old.items ++ units_for (around context.now) item.now (values_of names.now) source.now) }
    ensures objects { OnOk result (objects.new ≡ objects.old ++ objects_for (around context.now) item.now (values_of names.now) source.now) }
{
    match use_of(alloc, source)? {
        SourceUse::Built(tool) => add_unit(
            alloc,
            units,
            objects,
            unit_of(alloc, context, item, names, tool, source)?,
        ),
        SourceUse::Object => objects.push(source.seen_from(alloc, context.build)?),
        SourceUse::NotBuilt => Ok(()),
    }
}

// Puts what becomes of sources behind others.
fn add_sources(
    alloc: Global,
    context: &Context<'_>,
    item: &Item,
    names: &OutputNames<'_>,
    units: &mut Vec<Unit>,
    objects: &mut Texts,
    sources: &[Path],
) -> Result<(), AllocError>
    ensures units { OnOk result (units.new.items ≡ units.old.items ++ flat_map (units_for (around context.now) item.now (values_of names.now)) sources.now) }
    ensures objects { OnOk result (objects.new ≡ objects.old ++ flat_map (objects_for (around context.now) item.now (values_of names.now)) sources.now) }
{
    for source in sources {
        add_source(alloc, context, item, names, units, objects, source)?;
    }
    Ok(())
}

// What the target makes of its own sources.
pub(crate) fn own_sources(
    alloc: Global,
    context: &Context<'_>,
    item: &Item,
    names: &OutputNames<'_>,
    hard: &Texts,
) -> Result<OwnSources, AllocError>
    ensures { IfOk result (λ s. s ≡ own_sources (around context.now) item.now (values_of names.now) hard.now) }
{
    let mut units = Vec::new(alloc);
    let mut objects = Texts::new(alloc);
    let sources = item.fields.paths(Variable::Sources);
    add_sources(
        alloc,
        context,
        item,
        names,
        &mut units,
        &mut objects,
        sources,
    )?;
    let inputs = paths_at(alloc, context, item, Variable::Inputs)?;
    let hard = hard.copy(alloc)?;
    Ok(OwnSources {
        inputs,
        hard,
        units: Units::from_vec(units),
        objects,
    })
}
