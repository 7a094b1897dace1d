// Whole blocks and files.

ghost use Rattle.std.specs.Prelude.{◌≡◌, ◌≢◌, ◌≤◌, [], ◌∷◌, Err, option_map, codes};
ghost use Rattle.gn_tree.specs.Depth.{IsShallow, max_tree_depth, statement_depth};
ghost use Rattle.gn_tree.specs.Views.{statement_of};
ghost use Rattle.gn_meaning.specs.Steps.{max_evaluation_depth};
ghost use Rattle.gn_meaning.specs.Meaning.{world, statement_runs, whole_block_runs, file_runs, import_file_runs, lacks_toolchain, configuration_ends, configuration_file_runs};
ghost use Rattle.gn_items.specs.Effects.{Effects};
ghost use Rattle.gn_environment.specs.Environment.{reported_here};
ghost use Rattle.gn_meaning.specs.Calls.{checked_end};
ghost use Rattle.gn_environment.specs.Faults.{fault_in};
ghost use Rattle.gn_faults.specs.declared.code.Code.TheVariants as code;
ghost use Rattle.gn_steps.specs.Ends.{IsStep, IsFault};
ghost use Rattle.gn_eval.specs.Library.{Need};
ghost use Rattle.gn_eval.specs.Ends.{Evaluates, EvaluatesSpent, IsSpentRun};

use crate::ending::EvalEnd;
use crate::level::Level;
use crate::library::Library;
use crate::statements::{run_statement, run_statements};
use gn_calls_scopes::Definer;
use gn_definitions::ImportValue;
use gn_env::Env;
use gn_faults::Code;
use gn_items::{DefaultToolchain, Outcome};
use gn_paths::Text;
use gn_steps::{StepEnd, no_effect, wrong_with};
use gn_tree::{Block, Position, Statement};
use std::alloc::Global;

/// Runs the statements of a block in the innermost scope of the environment. What they define and print is added to
/// `out`. `Wrong` has the first fault from left to right, and comes exactly where there is one, but for want of memory.
/// `Spoiled` comes exactly where the first thing that goes wrong is an import that the library can't use, and has its
/// path and where its call stands. `Stopped` comes where the library has stopped: it lacks the answer that it has noted.
/// After an error the environment is spent, and of `out` only what it asked stands: whatever the end, `out` has the questions
/// asked, in order, but for want of memory; where the library has stopped, those before the one that it lacks.
#[tactic(auto, unfolding(gn_meaning::specs::Meaning::whole_block_runs))]
pub fn run_block<L: Library + Definer>(
    alloc: Global,
    block: &Block,
    env: &mut Env,
    out: &mut Outcome,
    library: &mut L,
) -> Result<(), EvalEnd>
    requires shallow { IsShallow block.now }
    ensures { Evaluates (λ u. u) (L.state library.old) (L.state library.new) result env.new out.new (λ a. whole_block_runs a block.now env.old out.old) }
{
    run_statements(alloc, Level::outermost(), block, env, out, library)
}

/// Runs one statement of the outermost block of a file in the innermost scope of the environment. Else it is as `run_block`, which
/// runs the statements of its block in order.
pub fn run_outermost<L: Library + Definer>(
    alloc: Global,
    statement: &Statement,
    env: &mut Env,
    out: &mut Outcome,
    library: &mut L,
) -> Result<(), EvalEnd>
    requires shallow { statement_depth (statement_of statement.now) ≤ max_tree_depth }
    ensures { Evaluates (λ u. u) (L.state library.old) (L.state library.new) result env.new out.new (λ a. statement_runs (world max_evaluation_depth a) 0
        (statement_of statement.now) env.old out.old) }
{
    run_statement(alloc, Level::outermost(), statement, env, out, library)
}

/// The end of a file whose block has run and whose scope is checked: the name that nothing read and whose last assignment stands
/// first is a fault there.
pub fn end_file(alloc: Global, env: &Env) -> Result<(), StepEnd>
    ensures runs { (out : Effects) → IsStep (λ u. u) result env.now out (checked_end (reported_here env.now) tt env.now env.now out) }
{
    match env.unread() {
        Some((name, position)) => Err(no_effect(alloc, env, position, name)),
        None => Ok(()),
    }
}

/// Runs a whole file in the innermost scope of the environment: its block, and then, where that scope is checked, the
/// name that nothing read and whose last assignment stands first is a fault there. Else it is as `run_block`.
#[tactic(auto, unfolding(gn_meaning::specs::Meaning::file_runs))]
pub fn run_file<L: Library + Definer>(
    alloc: Global,
    block: &Block,
    env: &mut Env,
    out: &mut Outcome,
    library: &mut L,
) -> Result<(), EvalEnd>
    requires shallow { IsShallow block.now }
    ensures { Evaluates (λ u. u) (L.state library.old) (L.state library.new) result env.new out.new (λ a. file_runs a block.now env.old out.old) }
{
    run_block(alloc, block, env, out, library)?;
    end_file(alloc, env)?;
    Ok(())
}

/// Runs a whole file that is imported, in the innermost scope of the environment: its block, and then what it leaves for
/// those who import it, for which the environment is spent. No name has to be read. Else it is as `run_block`.
#[tactic(auto, unfolding(gn_meaning::specs::Meaning::import_file_runs))]
pub fn run_import_file<L: Library + Definer>(
    alloc: Global,
    block: &Block,
    mut env: Env,
    out: &mut Outcome,
    library: &mut L,
) -> Result<ImportValue, EvalEnd>
    requires shallow { IsShallow block.now }
    ensures { EvaluatesSpent (λ v. v) (L.state library.old) (L.state library.new) result out.new (λ a. import_file_runs a block.now env out.old) }
{
    match run_block(alloc, block, &mut env, out, library) {
        Ok(()) => Ok(env.import_value(alloc)?),
        Err(end) => {
            drop(env);
            Err(end)
        }
    }
}

// Whether a build configuration lacks the name of the default toolchain.
fn lacks_toolchain(toolchain: &Text, named: Option<&DefaultToolchain>) -> bool
    ensures { result ≡ lacks_toolchain toolchain.now (option_map (λ t. t.now) named.entry) }
{
    toolchain.len() == 0 && named.is_none()
}

// The end of a build configuration that names no default toolchain.
fn no_toolchain(alloc: Global, env: &Env) -> StepEnd
    ensures { IsFault result (fault_in env.now.setting (record { line = 1; column = 1 }) code.Missing (codes "set_default_toolchain" ∷ [])) }
{
    let beginning = Position { line: 1, column: 1 };
    match Text::from_bytes(alloc, b"set_default_toolchain") {
        Ok(name) => wrong_with(alloc, env, Code::Missing, beginning, &name),
        Err(_) => StepEnd::Memory,
    }
}

/// What a build configuration whose block has run leaves for the files beneath which it stands, unless it lacks the name of the
/// default toolchain.
#[tactic(auto, unfolding(gn_meaning::specs::Meaning::configuration_ends))]
pub fn end_configuration(alloc: Global, env: Env, out: &Outcome) -> Result<ImportValue, EvalEnd>
    ensures runs { (need : Need) → IsSpentRun (λ v. v) need result out.now (configuration_ends env out.now) }
    ensures goes_on { result ≢ Err EvalEnd.Stopped }
{
    if lacks_toolchain(&env.context().toolchain, out.default_toolchain()) {
        let end = no_toolchain(alloc, &env);
        drop(env);
        return Err(end.into());
    }
    Ok(env.configuration_value(alloc)?)
}

/// Runs the build configuration, in the innermost scope of the environment: its block, and then what it leaves for the files
/// beneath which it stands, for which the environment is spent. No name has to be read. Under the default toolchain, whose text
/// isn't known while it runs, `Wrong` has `Missing` at line 1, column 1 where it doesn't name that toolchain. Else it is as
/// `run_block`.
#[tactic(auto, unfolding(gn_meaning::specs::Meaning::configuration_file_runs, gn_meaning::specs::Meaning::configuration_ends))]
pub fn run_configuration_file<L: Library + Definer>(
    alloc: Global,
    block: &Block,
    mut env: Env,
    out: &mut Outcome,
    library: &mut L,
) -> Result<ImportValue, EvalEnd>
    requires shallow { IsShallow block.now }
    ensures { EvaluatesSpent (λ v. v) (L.state library.old) (L.state library.new) result out.new (λ a. configuration_file_runs a block.now env out.old) }
{
    match run_block(alloc, block, &mut env, out, library) {
        Ok(()) => end_configuration(alloc, env, out),
        Err(end) => {
            drop(env);
            Err(end)
        }
    }
}
