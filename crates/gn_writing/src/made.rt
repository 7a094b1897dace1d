// What the build lines of a file make.

ghost use Rattle.std.specs.Prelude.{◌≡◌, ◌++◌, OnOk, IfOk, map};
ghost use Rattle.std.specs.List.{flat_map};
ghost use Rattle.gn_writing.specs.Lines.{made};
ghost use Rattle.gn_writing.specs.Kinds.{group_blocks, copy_blocks, copied_outs, action_blocks, run_outs, compiled_blocks, source_outs, target_blocks};

use crate::records::{Action, Compiled, Copied, CopyTarget, Group, Run, Unit, Written};
use gn_paths::{Text, Texts};
use std::alloc::{AllocError, Global};

// Puts the paths of a list behind the others.
fn add_all<'a>(outs: &mut Vec<&'a Text>, paths: &'a Texts) -> Result<(), AllocError>
    ensures { OnOk result (map (λ t. t.now) outs.new.items ≡ map (λ t. t.now) outs.old.items ++ paths.now) }
{
    for path in paths.as_slice() {
        outs.push(path)?;
    }
    Ok(())
}

// Puts what is copied behind the others.
fn add_copied<'a>(outs: &mut Vec<&'a Text>, files: &'a [Copied]) -> Result<(), AllocError>
    ensures { OnOk result (map (λ t. t.now) outs.new.items ≡ map (λ t. t.now) outs.old.items ++ flat_map copied_outs files.now) }
{
    for file in files {
        add_all(outs, &file.outs)?;
    }
    Ok(())
}

// Puts what runs make behind the others.
fn add_runs<'a>(outs: &mut Vec<&'a Text>, runs: &'a [Run]) -> Result<(), AllocError>
    ensures { OnOk result (map (λ t. t.now) outs.new.items ≡ map (λ t. t.now) outs.old.items ++ flat_map run_outs runs.now) }
{
    for run in runs {
        add_all(outs, &run.outs)?;
    }
    Ok(())
}

// Puts what sources are built into behind the others.
fn add_units<'a>(outs: &mut Vec<&'a Text>, units: &'a [Unit]) -> Result<(), AllocError>
    ensures { OnOk result (map (λ t. t.now) outs.new.items ≡ map (λ t. t.now) outs.old.items ++ flat_map source_outs units.now) }
{
    for unit in units {
        add_all(outs, &unit.outs)?;
    }
    Ok(())
}

// What a group makes, behind the others.
#[tactic(auto, using(crate::proofs::LeftSides::made_by_group))]
fn add_group<'a>(outs: &mut Vec<&'a Text>, group: &'a Group) -> Result<(), AllocError>
    ensures { OnOk result (map (λ t. t.now) outs.new.items ≡ map (λ t. t.now) outs.old.items ++ made (group_blocks group.now)) }
{
    add_all(outs, &group.stamp.outs)
}

// What a copy makes, behind the others.
#[tactic(auto, using(crate::proofs::LeftSides::made_by_copy))]
fn add_copy<'a>(outs: &mut Vec<&'a Text>, copy: &'a CopyTarget) -> Result<(), AllocError>
    ensures { OnOk result (map (λ t. t.now) outs.new.items ≡ map (λ t. t.now) outs.old.items ++ made (copy_blocks copy.now)) }
{
    add_copied(outs, copy.files.as_slice())?;
    add_all(outs, &copy.stamp.outs)
}

// What an action makes, behind the others.
#[tactic(auto, using(crate::proofs::LeftSides::made_by_action))]
fn add_action<'a>(outs: &mut Vec<&'a Text>, action: &'a Action) -> Result<(), AllocError>
    ensures { OnOk result (map (λ t. t.now) outs.new.items ≡ map (λ t. t.now) outs.old.items ++ made (action_blocks action.now)) }
{
    add_runs(outs, action.runs.as_slice())?;
    add_all(outs, &action.stamp.outs)
}

// What a compiled target makes, behind the others.
#[tactic(auto, using(crate::proofs::LeftSides::made_by_compiled))]
fn add_compiled<'a>(outs: &mut Vec<&'a Text>, target: &'a Compiled) -> Result<(), AllocError>
    ensures { OnOk result (map (λ t. t.now) outs.new.items ≡ map (λ t. t.now) outs.old.items ++ made (compiled_blocks target.now)) }
{
    add_units(outs, target.sources.units.as_slice())?;
    add_all(outs, &target.join.step.outs)
}

// What a target makes, behind the others.
fn add_made<'a>(outs: &mut Vec<&'a Text>, target: &'a Written) -> Result<(), AllocError>
    ensures { OnOk result (map (λ t. t.now) outs.new.items ≡ map (λ t. t.now) outs.old.items ++ made (target_blocks target.now)) }
{
    match target {
        Written::Group(group) => add_group(outs, group),
        Written::Copy(copy) => add_copy(outs, copy),
        Written::Action(action) => add_action(outs, action),
        Written::Compiled(compiled) => add_compiled(outs, compiled),
    }
}

/// What a target makes: the left sides of the build lines of its file, in order.
pub fn made_by<'a>(alloc: Global, target: &'a Written) -> Result<Vec<&'a Text>, AllocError>
    ensures { IfOk result (λ outs. map (λ t. t.now) outs.items ≡ made (target_blocks target.now)) }
{
    let mut outs = Vec::new(alloc);
    add_made(&mut outs, target)?;
    Ok(outs)
}
