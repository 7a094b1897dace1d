// The files of targets.

ghost use Rattle.std.specs.Prelude.{◌≡◌, OnOk, map};
ghost use Rattle.std.specs.List.{flat_map};
ghost use Rattle.gn_writing.specs.Kinds.{step_block, run_outs, group_blocks, copied_block, copy_blocks, action_rule, run_block, action_blocks, compiled_bindings, source_block, last_block, compiled_blocks, target_blocks};
ghost use Rattle.gn_ninja.specs.Format.{with_block, with_blocks};

use crate::blocks::{append_bindings, append_build, append_rule};
use crate::lines::{Binding, Build, Bytes, Paths, Value};
use gn_writing::{Action, Compiled, Copied, CopyTarget, Group, Run, Unit, Written};
use std::alloc::{AllocError, Global};

// Puts the file of a group at the end.
fn append_group(alloc: Global, text: &mut Vec<u8>, group: &Group) -> Result<(), AllocError>
    ensures { OnOk result (text.new.items ≡ with_blocks text.old.items (group_blocks group.now)) }
{
    append_build(
        alloc,
        text,
        Build {
            outs: &[Paths::All(&group.stamp.outs)],
            rule: Bytes::Of(&group.stamp.rule),
            ins: &[Paths::All(&group.dones.deps)],
            implicit: &[],
            order: &[Paths::All(&group.dones.data_deps)],
        },
        &[],
    )
}

// Puts the build line of a file that is copied at the end.
fn append_file(
    alloc: Global,
    text: &mut Vec<u8>,
    copy: &CopyTarget,
    file: &Copied,
) -> Result<(), AllocError>
    ensures { OnOk result (text.new.items ≡ with_block text.old.items (copied_block copy.now file.now)) }
{
    append_build(
        alloc,
        text,
        Build {
            outs: &[Paths::All(&file.outs)],
            rule: Bytes::Of(&copy.rule),
            ins: &[Paths::One(&file.source)],
            implicit: &[],
            order: &[Paths::All(&copy.dones.deps)],
        },
        &[],
    )
}

// Puts the build lines of all files of a copy at the end.
fn append_files(alloc: Global, text: &mut Vec<u8>, copy: &CopyTarget) -> Result<(), AllocError>
    ensures { OnOk result (text.new.items ≡ with_blocks text.old.items (map (copied_block copy.now) copy.now.files)) }
{
    for file in copy.files.as_slice() {
        append_file(alloc, text, copy, file)?;
    }
    Ok(())
}

// Puts the file of a copy at the end.
fn append_copy(alloc: Global, text: &mut Vec<u8>, copy: &CopyTarget) -> Result<(), AllocError>
    ensures { OnOk result (text.new.items ≡ with_blocks text.old.items (copy_blocks copy.now)) }
{
    append_files(alloc, text, copy)?;
    append_build(
        alloc,
        text,
        Build {
            outs: &[Paths::All(&copy.stamp.outs)],
            rule: Bytes::Of(&copy.stamp.rule),
            ins: &[Paths::Copied(&copy.files)],
            implicit: &[],
            order: &[Paths::All(&copy.dones.data_deps)],
        },
        &[],
    )
}

// Puts the rule of an action at the end.
fn append_action_rule(alloc: Global, text: &mut Vec<u8>, action: &Action) -> Result<(), AllocError>
    ensures { OnOk result (text.new.items ≡ with_block text.old.items (action_rule action.now)) }
{
    append_rule(
        alloc,
        text,
        &action.rule.name,
        &[
            Binding {
                name: b"command",
                value: Value::Written(&action.rule.command),
            },
            Binding {
                name: b"description",
                value: Value::Written(&action.rule.description),
            },
            Binding {
                name: b"pool",
                value: Value::WrittenIf(&action.rule.pool),
            },
            Binding {
                name: b"restat",
                value: Value::Plain(Bytes::Fixed(b"1")),
            },
        ],
    )
}

// Puts the build line of a run at the end.
fn append_run(
    alloc: Global,
    text: &mut Vec<u8>,
    action: &Action,
    run: &Run,
) -> Result<(), AllocError>
    ensures { OnOk result (text.new.items ≡ with_block text.old.items (run_block action.now run.now)) }
{
    append_build(
        alloc,
        text,
        Build {
            outs: &[Paths::All(&run.outs)],
            rule: Bytes::Of(&action.rule.name),
            ins: &[Paths::All(&run.ins)],
            implicit: &[
                Paths::One(&action.script),
                Paths::All(&action.inputs),
                Paths::All(&run.sources),
            ],
            order: &[Paths::All(&action.dones.deps)],
        },
        &[
            Binding {
                name: b"args",
                value: Value::Words(b"", &run.args),
            },
            Binding {
                name: b"depfile",
                value: Value::PlainIf(&run.depfile),
            },
            Binding {
                name: b"deps",
                value: Value::FixedIf(b"gcc", &run.depfile),
            },
            Binding {
                name: b"rspfile",
                value: Value::PlainIf(&run.response_file),
            },
            Binding {
                name: b"rspfile_content",
                value: Value::WordsIf(&run.response),
            },
        ],
    )
}

// Puts the build lines of all runs at the end.
fn append_runs(alloc: Global, text: &mut Vec<u8>, action: &Action) -> Result<(), AllocError>
    ensures { OnOk result (text.new.items ≡ with_blocks text.old.items (map (run_block action.now) action.now.runs)) }
{
    for run in action.runs.as_slice() {
        append_run(alloc, text, action, run)?;
    }
    Ok(())
}

// Puts the stamp line of an action at the end.
fn append_action_stamp(alloc: Global, text: &mut Vec<u8>, action: &Action) -> Result<(), AllocError>
    ensures { OnOk result (text.new.items ≡ with_block text.old.items (step_block action.now.stamp (flat_map run_outs action.now.runs) action.now.dones.data_deps)) }
{
    append_build(
        alloc,
        text,
        Build {
            outs: &[Paths::All(&action.stamp.outs)],
            rule: Bytes::Of(&action.stamp.rule),
            ins: &[Paths::Runs(&action.runs)],
            implicit: &[],
            order: &[Paths::All(&action.dones.data_deps)],
        },
        &[],
    )
}

// Puts the file of an action or action_foreach at the end.
fn append_action(alloc: Global, text: &mut Vec<u8>, action: &Action) -> Result<(), AllocError>
    ensures { OnOk result (text.new.items ≡ with_blocks text.old.items (action_blocks action.now)) }
{
    append_action_rule(alloc, text, action)?;
    append_runs(alloc, text, action)?;
    append_action_stamp(alloc, text, action)
}

// Puts the bindings of a compiled target at the end.
fn append_compiled_bindings(
    alloc: Global,
    text: &mut Vec<u8>,
    target: &Compiled,
) -> Result<(), AllocError>
    ensures { OnOk result (text.new.items ≡ with_block text.old.items (compiled_bindings target.now)) }
{
    append_bindings(
        alloc,
        text,
        &[
            Binding {
                name: b"asmflags",
                value: Value::Words(b"", &target.compile.asmflags),
            },
            Binding {
                name: b"cflags",
                value: Value::Words(b"", &target.compile.cflags),
            },
            Binding {
                name: b"cflags_c",
                value: Value::Words(b"", &target.compile.cflags_c),
            },
            Binding {
                name: b"cflags_cc",
                value: Value::Words(b"", &target.compile.cflags_cc),
            },
            Binding {
                name: b"defines",
                value: Value::Words(b"-D", &target.compile.defines),
            },
            Binding {
                name: b"include_dirs",
                value: Value::Words(b"-I", &target.compile.include_dirs),
            },
            Binding {
                name: b"label",
                value: Value::Plain(Bytes::Of(&target.names.label)),
            },
            Binding {
                name: b"label_name",
                value: Value::Plain(Bytes::Of(&target.names.name)),
            },
            Binding {
                name: b"label_no_toolchain",
                value: Value::PlainIf(&target.names.no_toolchain),
            },
            Binding {
                name: b"ldflags",
                value: Value::Words(b"", &target.link.ldflags),
            },
            Binding {
                name: b"libs",
                value: Value::Words(b"", &target.link.libs),
            },
            Binding {
                name: b"output_dir",
                value: Value::Plain(Bytes::Of(&target.output.directory)),
            },
            Binding {
                name: b"output_extension",
                value: Value::Plain(Bytes::Of(&target.output.extension)),
            },
            Binding {
                name: b"root_gen_dir",
                value: Value::PlainIf(&target.directories.root_gen_dir),
            },
            Binding {
                name: b"root_out_dir",
                value: Value::Plain(Bytes::Of(&target.directories.root_out_dir)),
            },
            Binding {
                name: b"solibs",
                value: Value::Words(b"", &target.link.solibs),
            },
            Binding {
                name: b"target_gen_dir",
                value: Value::PlainIf(&target.directories.target_gen_dir),
            },
            Binding {
                name: b"target_out_dir",
                value: Value::Plain(Bytes::Of(&target.directories.target_out_dir)),
            },
            Binding {
                name: b"target_output_name",
                value: Value::Plain(Bytes::Of(&target.output.name)),
            },
        ],
    )
}

// Puts the build line of a source at the end.
fn append_source(
    alloc: Global,
    text: &mut Vec<u8>,
    target: &Compiled,
    unit: &Unit,
) -> Result<(), AllocError>
    ensures { OnOk result (text.new.items ≡ with_block text.old.items (source_block target.now unit.now)) }
{
    append_build(
        alloc,
        text,
        Build {
            outs: &[Paths::All(&unit.outs)],
            rule: Bytes::Of(&unit.rule),
            ins: &[Paths::One(&unit.source)],
            implicit: &[Paths::All(&target.sources.inputs)],
            order: &[Paths::All(&target.sources.hard)],
        },
        &[
            Binding {
                name: b"source_file_part",
                value: Value::Plain(Bytes::Of(&unit.file_part)),
            },
            Binding {
                name: b"source_name_part",
                value: Value::Plain(Bytes::Of(&unit.name_part)),
            },
        ],
    )
}

// Puts the build lines of all sources at the end.
fn append_sources(alloc: Global, text: &mut Vec<u8>, target: &Compiled) -> Result<(), AllocError>
    ensures { OnOk result (text.new.items ≡ with_blocks text.old.items (map (source_block target.now) target.now.sources.units)) }
{
    for unit in target.sources.units.as_slice() {
        append_source(alloc, text, target, unit)?;
    }
    Ok(())
}

// Puts the last build line of a compiled target at the end.
fn append_last(alloc: Global, text: &mut Vec<u8>, target: &Compiled) -> Result<(), AllocError>
    ensures { OnOk result (text.new.items ≡ with_block text.old.items (last_block target.now)) }
{
    append_build(
        alloc,
        text,
        Build {
            outs: &[Paths::All(&target.join.step.outs)],
            rule: Bytes::Of(&target.join.step.rule),
            ins: &[
                Paths::All(&target.sources.objects),
                Paths::All(&target.join.set_objects),
                Paths::All(&target.join.statics),
            ],
            implicit: &[Paths::All(&target.join.shared)],
            order: &[Paths::All(&target.join.rest)],
        },
        &[],
    )
}

// Puts the file of a compiled target at the end.
#[tactic(auto, unfolding(gn_writing::specs::Kinds::compiled_blocks))]
fn append_compiled(alloc: Global, text: &mut Vec<u8>, target: &Compiled) -> Result<(), AllocError>
    ensures { OnOk result (text.new.items ≡ with_blocks text.old.items (compiled_blocks target.now)) }
{
    append_compiled_bindings(alloc, text, target)?;
    append_sources(alloc, text, target)?;
    append_last(alloc, text, target)
}

/// Puts the file of a target at the end of a text, behind an empty line where one stands there.
pub fn append_target(alloc: Global, text: &mut Vec<u8>, target: &Written) -> Result<(), AllocError>
    ensures { OnOk result (text.new.items ≡ with_blocks text.old.items (target_blocks target.now)) }
{
    match target {
        Written::Group(group) => append_group(alloc, text, group),
        Written::Copy(copy) => append_copy(alloc, text, copy),
        Written::Action(action) => append_action(alloc, text, action),
        Written::Compiled(compiled) => append_compiled(alloc, text, compiled),
    }
}
