// The calls that change where they stand, once their arguments are evaluated.

ghost use Rattle.std.specs.Prelude.{◌≡◌, ◌≤◌, [], ◌∷◌, Option, OnOk, map, option_map};
ghost use Rattle.gn_items.specs.Effects.{with_asked};
ghost use Rattle.gn_runs.specs.Runs.{content_of, import_of};
ghost use Rattle.gn_values.specs.Val.{Val};
ghost use Rattle.gn_values.specs.View.{val_of};
ghost use Rattle.gn_tree.specs.Depth.{max_tree_depth, call_depth};
ghost use Rattle.gn_tree.specs.Views.{call_of};
ghost use Rattle.gn_environment.specs.Declaring.{import_brought};
ghost use Rattle.gn_meaning.specs.Words.{fails_at};
ghost use Rattle.gn_meaning.specs.Arguments.{at_argument};
ghost use Rattle.gn_meaning.specs.Imports.{merged_to, imported_runs};
ghost use Rattle.gn_meaning.specs.ChangingCalls.{importing_runs, changed_runs};
ghost use Rattle.gn_calls_scopes.specs.Resolved.{path_asked};
ghost use Rattle.gn_steps.specs.Ends.{IsStep, IsStepFailure};
ghost use Rattle.gn_eval.specs.Ends.{Evaluates, IsSpoiled};

use crate::ending::{EvalEnd, lift};
use crate::library::{Imported, Library};
use gn_calls_scopes::{
    define_template, forward_variables, mark_not_needed, merge_import, resolve_import,
    set_default_toolchain,
};
use gn_definitions::ImportValue;
use gn_env::Env;
use gn_faults::Code;
use gn_functions::Changing;
use gn_items::Outcome;
use gn_paths::{Path, Place};
use gn_steps::{StepEnd, argument_position, place_here, refuse, wrong_with};
use gn_tree::{Call, Position};
use gn_values::Value;
use std::alloc::{AllocError, Global};

/// What such a call does with the values of its arguments, of which the first may be the invoker itself. A template's
/// block nests as deep as `nesting` says.
#[tactic(auto, unfolding(gn_meaning::specs::ChangingCalls::changed_runs), using(crate::proofs::Passed::step_claims))]
pub(crate) fn change<L: Library>(
    alloc: Global,
    changing: Changing,
    invoker: bool,
    values: &[Value],
    nesting: u32,
    call: &Call,
    env: &mut Env,
    out: &mut Outcome,
    library: &mut L,
) -> Result<Option<Value>, EvalEnd>
    requires shallow { call_depth (call_of call.now) ≤ max_tree_depth }
    ensures { Evaluates (option_map val_of) (L.state library.old) (L.state library.new) result env.new out.new (λ a. changed_runs a changing invoker
        (map val_of values.now) call.now nesting env.old out.old) }
{
    match changing {
        Changing::Import => import_value(alloc, values, call, env, out, library),
        Changing::Template => lift(define_template(alloc, values, call, nesting, env)),
        Changing::ForwardVariablesFrom => {
            lift(forward_variables(alloc, invoker, values, call, env))
        }
        Changing::NotNeeded => lift(mark_not_needed(alloc, invoker, values, call, env)),
        Changing::SetDefaultToolchain => lift(set_default_toolchain(alloc, values, call, env, out)),
    }
}

// `import(path)`
fn import_value<L: Library>(
    alloc: Global,
    values: &[Value],
    call: &Call,
    env: &mut Env,
    out: &mut Outcome,
    library: &mut L,
) -> Result<Option<Value>, EvalEnd>
    ensures { Evaluates (option_map val_of) (L.state library.old) (L.state library.new) result env.new out.new (λ a. importing_runs a
        (map val_of values.now) call.now env.old out.old) }
{
    match values {
        [argument] => import_argument(alloc, argument, call, env, out, library),
        _ => lift(Err(refuse(alloc, call, env))),
    }
}

// The import of the file that an argument names.
fn import_argument<L: Library>(
    alloc: Global,
    argument: &Value,
    call: &Call,
    env: &mut Env,
    out: &mut Outcome,
    library: &mut L,
) -> Result<Option<Value>, EvalEnd>
    ensures { Evaluates (option_map val_of) (L.state library.old) (L.state library.new) result env.new out.new (λ a. imported_runs a (val_of argument.now)
        (at_argument call.now 0) call.now.position env.old out.old) }
{
    let at = argument_position(call, 0);
    let path = resolve_import(alloc, argument, at, env)?;
    import_file(alloc, path, at, call.position, env, out, library)
}

// The import of the file at a path, whose argument stands at `at`. What is asked for is noted.
fn import_file<L: Library>(
    alloc: Global,
    path: Path,
    at: Position,
    position: Position,
    env: &mut Env,
    out: &mut Outcome,
    library: &mut L,
) -> Result<Option<Value>, EvalEnd>
    ensures { Evaluates (option_map val_of) (L.state library.old) (L.state library.new) result env.new out.new (λ a. path_asked path a at position env.old out.old) }
{
    let place = place_here(alloc, position, env)?;
    match library.import(alloc, &path, &place) {
        Ok(Imported::Value(value)) => lift(merge_known(alloc, value, &path, position, env, out)),
        Ok(Imported::Absent) => Err(lack_file(alloc, &path, at, env, out).into()),
        Ok(Imported::Spoiled) => Err(spoil(path, place, out)),
        Err(stop) => Err(stop.into()),
    }
}

// The import of a file that leaves this value, at a call at the position.
fn merge_known(
    alloc: Global,
    value: ImportValue,
    path: &Path,
    position: Position,
    env: &mut Env,
    out: &mut Outcome,
) -> Result<Option<Value>, StepEnd>
    ensures { IsStep (option_map val_of) result env.new out.new (merged_to (import_brought position value env.old) position env.old
        (with_asked (import_of path.now) (with_asked (content_of path.now) out.old))) }
{
    note_import(path, out)?;
    merge_import(alloc, value, position, env)
}

// The end of the import of a file that there isn't, whose argument stands at `at`.
fn lack_file(alloc: Global, path: &Path, at: Position, env: &Env, out: &mut Outcome) -> StepEnd
    ensures { IsStepFailure {A = Option Val} result out.new (fails_at Code.NoFile at (path.now ∷ []) env.now (with_asked (content_of path.now) out.old)) }
{
    match out.ask_content(path) {
        Ok(()) => wrong_with(alloc, env, Code::NoFile, at, path.as_text()),
        Err(_) => StepEnd::Memory,
    }
}

// The end where an import can't be used.
fn spoil(path: Path, place: Place, out: &mut Outcome) -> EvalEnd
    ensures { IsSpoiled result path place out.old out.new }
{
    match note_import(&path, out) {
        Ok(()) => EvalEnd::Spoiled(path, place),
        Err(_) => EvalEnd::Memory,
    }
}

// Notes that the content of a file was asked for, and then what its import leaves.
fn note_import(path: &Path, out: &mut Outcome) -> Result<(), AllocError>
    ensures { OnOk result (out.new ≡ with_asked (import_of path.now) (with_asked (content_of path.now) out.old)) }
{
    out.ask_content(path)?;
    out.ask_import(path)
}
