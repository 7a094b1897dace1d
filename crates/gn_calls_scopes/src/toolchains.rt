// `set_default_toolchain`, once its argument is evaluated.

ghost use Rattle.std.specs.Prelude.{◌≡◌, OnOk, map, option_map};
ghost use Rattle.gn_values.specs.View.{val_of};
ghost use Rattle.gn_items.specs.Effects.{with_default_toolchain};
ghost use Rattle.gn_meaning.specs.Toolchains.{label_code, default_named, toolchain_set_runs, toolchain_setting_runs};
ghost use Rattle.gn_steps.specs.Ends.{IsStep};

use gn_env::Env;
use gn_faults::Code;
use gn_items::{DefaultToolchain, Outcome};
use gn_labels::{Label, LabelFault, Named, label_meant};
use gn_steps::{StepEnd, argument_position, path_code, place_here, refuse, wrong};
use gn_tree::{Call, Position};
use gn_values::Value;
use std::alloc::{AllocError, Global};

// The code of a text that means no label.
fn label_code(fault: LabelFault) -> Code
    ensures { result ≡ label_code fault }
{
    match fault {
        LabelFault::BadLabel => Code::BadLabel,
        LabelFault::Path(fault) => path_code(fault),
    }
}

// Names the toolchain of this label, without the toolchain that the label has itself, for a call at the position.
fn name_toolchain(
    alloc: Global,
    label: Label,
    position: Position,
    env: &Env,
    out: &mut Outcome,
) -> Result<(), AllocError>
    ensures { OnOk result (out.new ≡ with_default_toolchain (default_named label position env.now) out.old) }
{
    let place = place_here(alloc, position, env)?;
    let Label { dir, name, .. } = label;
    out.set_default_toolchain(DefaultToolchain {
        label: Named { dir, name },
        place,
    });
    Ok(())
}

// The call at the position with its one value, which stands at `at`.
#[tactic(auto, unfolding(gn_meaning::specs::Toolchains::toolchain_set_runs))]
fn set_toolchain(
    alloc: Global,
    label: &Value,
    at: Position,
    position: Position,
    env: &Env,
    out: &mut Outcome,
) -> Result<Option<Value>, StepEnd>
    ensures { IsStep (option_map val_of) result env.now out.new (toolchain_set_runs (val_of label.now) at position env.now out.old) }
{
    let Value::Str(text) = label else {
        return Err(wrong(alloc, env, Code::BadTypes, at));
    };
    let toolchain = &env.context().toolchain;
    match label_meant(alloc, text.as_bytes(), env.directory(), toolchain)? {
        Ok(label) => {
            name_toolchain(alloc, label, position, env, out)?;
            Ok(None)
        }
        Err(fault) => Err(wrong(alloc, env, label_code(fault), at)),
    }
}

/// `set_default_toolchain(label)` with the values of its arguments: `out` has the toolchain of the label then, in place of one
/// that was named before. The label is read from the current directory, and a toolchain in it is dropped. `Wrong` has, at the
/// argument, `BadTypes` where it is no string, or `BadLabel`, `AboveRoot` or `BadPath` where it is no label; `BadArguments` at
/// the call for another number of values.
#[tactic(auto, unfolding(gn_meaning::specs::Toolchains::toolchain_setting_runs))]
pub fn set_default_toolchain(
    alloc: Global,
    values: &[Value],
    call: &Call,
    env: &Env,
    out: &mut Outcome,
) -> Result<Option<Value>, StepEnd>
    ensures { IsStep (option_map val_of) result env.now out.new (toolchain_setting_runs (map val_of values.now) call.now env.now out.old) }
{
    match values {
        [label] => set_toolchain(
            alloc,
            label,
            argument_position(call, 0),
            call.position,
            env,
            out,
        ),
        _ => Err(refuse(alloc, call, env)),
    }
}
