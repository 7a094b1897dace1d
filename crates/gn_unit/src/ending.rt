// The end of the execution of a whole file, whose outermost block runs from a statement on. Its tree is kept where it has stopped.

ghost use Rattle.std.specs.Prelude.{◌≡◌, IfErr};
ghost use Rattle.gn_tree.specs.Depth.{IsShallow};
ghost use Rattle.gn_meaning.specs.Meaning.{configuration_ends};
ghost use Rattle.gn_unit.specs.Ends.{IsSetupOf, IsLoadOf, IsImportOf, Executes, ended_with, failed_with, load_ends, import_ends, rest_then, IsEnd, WhereTree};

use crate::unit::{EvalStop, Unit};
use gn_env::Env;
use gn_eval::{Definer, EvalEnd, Library, end_configuration, end_file};
use gn_items::{Outcome, Question};
use gn_outermost::{Halted, Paused, run_on};
use gn_steps::StepEnd;
use gn_syntax::Parsed;
use std::alloc::Global;

/// The end of an execution that has left nothing, with the questions asked.
pub(crate) fn ended(end: EvalEnd, asked: Vec<Question>) -> Result<Unit, EvalStop>
    ensures { result ≡ ended_with end asked }
{
    match end {
        EvalEnd::Wrong(fault) => Ok(Unit::Wrong(fault, asked)),
        EvalEnd::Spoiled(path, place) => Ok(Unit::Spoiled(path, place, asked)),
        EvalEnd::Stopped => Err(EvalStop::Stopped(asked)),
        EvalEnd::Memory => Err(EvalStop::Memory),
    }
}

// The same of one whose file was read as this tree, which is kept where the library has stopped.
fn failed(end: EvalEnd, asked: Vec<Question>, tree: Parsed) -> Result<Unit, EvalStop>
    ensures { result ≡ failed_with end asked tree }
{
    match end {
        EvalEnd::Wrong(fault) => Ok(Unit::Wrong(fault, asked)),
        EvalEnd::Spoiled(path, place) => Ok(Unit::Spoiled(path, place, asked)),
        EvalEnd::Stopped => Err(EvalStop::Again(tree, asked)),
        EvalEnd::Memory => Err(EvalStop::Memory),
    }
}

// The end of a build file whose outermost block has run.
fn end_load(alloc: Global, env: Env, out: Outcome) -> Result<Unit, EvalStop>
    ensures { IsEnd IsLoadOf result (load_ends env out) }
{
    let done = end_file(alloc, &env);
    drop(env);
    match done {
        Ok(()) => Ok(Unit::Load(out)),
        Err(StepEnd::Wrong(fault)) => Ok(Unit::Wrong(fault, out.into_asked())),
        Err(StepEnd::Memory) => Err(EvalStop::Memory),
    }
}

// That of a file that is imported.
fn end_import(alloc: Global, env: Env, out: Outcome) -> Result<Unit, EvalStop>
    ensures { IsEnd IsImportOf result (import_ends env out) }
{
    match env.import_value(alloc) {
        Ok(value) => Ok(Unit::Import(value, out)),
        Err(_) => Err(EvalStop::Memory),
    }
}

// That of the build configuration.
fn end_setup(alloc: Global, env: Env, out: Outcome) -> Result<Unit, EvalStop>
    ensures { IsEnd IsSetupOf result (configuration_ends env out) }
{
    match end_configuration(alloc, env, &out) {
        Ok(value) => Ok(Unit::Setup(value, out)),
        Err(end) => ended(end, out.into_asked()),
    }
}

/// The unit of a build file, from a statement of its outermost block on.
pub(crate) fn load_on<L: Library + Definer>(
    alloc: Global,
    paused: Paused,
    library: &mut L,
) -> Result<Unit, EvalStop>
    requires shallow { IsShallow paused.tree }
    ensures unit { Executes IsLoadOf load_ends (L.state library.old) (L.state library.new) result (rest_then load_ends paused) }
    ensures tree { IfErr result (λ stop. WhereTree stop (λ tree. tree ≡ paused.tree)) }
{
    match run_on(alloc, paused, library) {
        Halted::Ended(env, out) => end_load(alloc, env, out),
        Halted::Paused(paused) => Err(EvalStop::Paused(paused)),
        Halted::Failed(end, out, tree) => failed(end, out.into_asked(), tree),
    }
}

/// The unit of a file that is imported, from a statement of its outermost block on.
pub(crate) fn import_on<L: Library + Definer>(
    alloc: Global,
    paused: Paused,
    library: &mut L,
) -> Result<Unit, EvalStop>
    requires shallow { IsShallow paused.tree }
    ensures unit { Executes IsImportOf import_ends (L.state library.old) (L.state library.new) result (rest_then import_ends paused) }
    ensures tree { IfErr result (λ stop. WhereTree stop (λ tree. tree ≡ paused.tree)) }
{
    match run_on(alloc, paused, library) {
        Halted::Ended(env, out) => end_import(alloc, env, out),
        Halted::Paused(paused) => Err(EvalStop::Paused(paused)),
        Halted::Failed(end, out, tree) => failed(end, out.into_asked(), tree),
    }
}

/// The unit of the build configuration, from a statement of its outermost block on.
pub(crate) fn setup_on<L: Library + Definer>(
    alloc: Global,
    paused: Paused,
    library: &mut L,
) -> Result<Unit, EvalStop>
    requires shallow { IsShallow paused.tree }
    ensures unit { Executes IsSetupOf configuration_ends (L.state library.old) (L.state library.new) result (rest_then configuration_ends paused) }
    ensures tree { IfErr result (λ stop. WhereTree stop (λ tree. tree ≡ paused.tree)) }
{
    match run_on(alloc, paused, library) {
        Halted::Ended(env, out) => end_setup(alloc, env, out),
        Halted::Paused(paused) => Err(EvalStop::Paused(paused)),
        Halted::Failed(end, out, tree) => failed(end, out.into_asked(), tree),
    }
}
