// What a target makes besides its objects and its stamp.

ghost use Rattle.std.specs.Prelude.{◌≡◌, ◌++◌, IfOk, OnOk, drop};
ghost use Rattle.std.specs.List.{flat_map};
ghost use Rattle.gn_writing.specs.Kinds.{copied_outs, run_outs};
ghost use Rattle.gn_records.specs.Made.{further_outs, compiled_outputs, outputs_of};

use crate::output::own_tool;
use crate::texts::add_copies;
use gn_items::ItemKind;
use gn_paths::{Text, Texts};
use gn_writing::{Compiled, Copied, Run, Unit, Written};
use std::alloc::{AllocError, Global};

// What is copied, behind others.
fn add_copied(alloc: Global, outs: &mut Texts, files: &[Copied]) -> Result<(), AllocError>
    ensures { OnOk result (outs.new ≡ outs.old ++ flat_map copied_outs files.now) }
{
    for file in files {
        add_copies(alloc, outs, file.outs.as_slice())?;
    }
    Ok(())
}

// What runs make, behind others.
fn add_runs(alloc: Global, outs: &mut Texts, runs: &[Run]) -> Result<(), AllocError>
    ensures { OnOk result (outs.new ≡ outs.old ++ flat_map run_outs runs.now) }
{
    for run in runs {
        add_copies(alloc, outs, run.outs.as_slice())?;
    }
    Ok(())
}

// What a list has behind its first item.
fn behind_first(texts: &[Text]) -> &[Text]
    ensures { result.now ≡ drop 1 texts.now }
{
    match texts {
        [_, more @ ..] => more,
        [] => &[],
    }
}

// What sources are built into besides their objects, behind others.
fn add_further(alloc: Global, outs: &mut Texts, units: &[Unit]) -> Result<(), AllocError>
    ensures { OnOk result (outs.new ≡ outs.old ++ flat_map further_outs units.now) }
{
    for unit in units {
        add_copies(alloc, outs, behind_first(unit.outs.as_slice()))?;
    }
    Ok(())
}

// What a compiled target makes besides its objects and its stamp, behind others.
fn add_compiled(
    alloc: Global,
    outs: &mut Texts,
    has_tool: bool,
    target: &Compiled,
) -> Result<(), AllocError>
    ensures { OnOk result (outs.new ≡ outs.old ++ compiled_outputs has_tool target.now) }
{
    add_further(alloc, outs, target.sources.units.as_slice())?;
    if has_tool {
        return add_copies(alloc, outs, target.join.step.outs.as_slice());
    }
    Ok(())
}

// What a target makes besides its objects and its stamp, behind others.
fn add_outputs(
    alloc: Global,
    outs: &mut Texts,
    kind: ItemKind,
    written: &Written,
) -> Result<(), AllocError>
    ensures { OnOk result (outs.new ≡ outs.old ++ outputs_of kind written.now) }
{
    match written {
        Written::Group(_) => Ok(()),
        Written::Copy(copy) => add_copied(alloc, outs, copy.files.as_slice()),
        Written::Action(action) => add_runs(alloc, outs, action.runs.as_slice()),
        Written::Compiled(target) => { add_compiled(alloc, outs, own_tool(kind).is_some(), target) }
    }
}

/// What a target of this kind makes besides its objects and its stamp, in the order of the build lines of its file.
pub fn outputs_of(alloc: Global, kind: ItemKind, written: &Written) -> Result<Texts, AllocError>
    ensures { IfOk result (λ outs. outs ≡ outputs_of kind written.now) }
{
    let mut outs = Texts::new(alloc);
    add_outputs(alloc, &mut outs, kind, written)?;
    Ok(outs)
}
