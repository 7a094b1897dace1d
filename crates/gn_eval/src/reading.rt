// `read_file`: its content is asked for, and what it holds is the answer or is evaluated.

ghost use Rattle.std.specs.Prelude.{◌≡◌, ◌≤◌, [], ◌∷◌, IfOk, OnOk, map, option_map};
ghost use Rattle.gn_tree.specs.Depth.{max_tree_depth, call_depth, expr_depth};
ghost use Rattle.gn_tree.specs.Views.{call_of};
ghost use Rattle.gn_values.specs.View.{val_of};
ghost use Rattle.gn_items.specs.Effects.{with_asked};
ghost use Rattle.gn_runs.specs.Runs.{content_of};
ghost use Rattle.gn_environment.specs.Faults.{fault_in};
ghost use Rattle.gn_meaning.specs.Steps.{deeper, then_do};
ghost use Rattle.gn_meaning.specs.Contents.{content_read, found_read, reading_runs, read_ends, read_file_runs};
ghost use Rattle.gn_meaning.specs.Meaning.{world, reads, values_run};
ghost use Rattle.gn_calls_plain.specs.Contents.{read_view, IsShallowRead};
ghost use Rattle.gn_eval.specs.Library.{IsWithinLimit, content_told};
ghost use Rattle.gn_eval.specs.Ends.{Evaluates};
ghost use Rattle.gn_eval.specs.Reads.{IsReadEnd};

use crate::ending::{EvalEnd, lift};
use crate::expressions::{eval_expr, eval_values};
use crate::level::Level;
use crate::library::{Found, Library};
use gn_calls_plain::{Read, Reading, begin_expression, begin_reading, missing, read_bytes, settle};
use gn_calls_scopes::Definer;
use gn_env::Env;
use gn_faults::Code;
use gn_items::Outcome;
use gn_steps::{place_here, refuse, wrong};
use gn_tree::{Call, SubExpr};
use gn_values::Value;
use std::alloc::{AllocError, Global};

/// `read_file(path, conversion)`
#[cycle(eval)]
pub(crate) fn run_read_file<L: Library + Definer>(
    alloc: Global,
    level: Level,
    call: &Call,
    env: &mut Env,
    out: &mut Outcome,
    library: &mut L,
) -> Result<Option<Value>, EvalEnd>
    requires shallow { call_depth (call_of call.now) ≤ max_tree_depth }
    ensures { Evaluates (option_map val_of) (L.state library.old) (L.state library.new) result env.new out.new (λ a. then_do
        (values_run (world level.room a) (deeper level.nesting 1) call.now.arguments [] env.old out.old) (λ vs env1 out1. read_file_runs a (reads level.room a) vs level.nesting call.now env1 out1)) }
{
    let arguments = call.arguments.as_slice();
    let values = eval_values(alloc, level.deeper(1), arguments, env, out, library)?;
    let read = read_file(alloc, &values, level.nesting, call, env, out, library)?;
    end_read(alloc, level, read, call, env, out, library)
}

// What is read is the answer, or is evaluated.
#[cycle(eval)]
#[tactic(auto, unfolding(gn_meaning::specs::Contents::read_ends), using(crate::proofs::Passed::step_claims))]
fn end_read<L: Library + Definer>(
    alloc: Global,
    level: Level,
    read: Read,
    call: &Call,
    env: &Env,
    out: &mut Outcome,
    library: &mut L,
) -> Result<Option<Value>, EvalEnd>
    requires shallow { IsShallowRead read }
    ensures { Evaluates (option_map val_of) (L.state library.old) (L.state library.new) result env.now out.new (λ a. read_ends (reads level.room a)
        (read_view read) level.nesting call.now env.now out.old) }
{
    match read {
        Read::Answer(settled) => lift(settle(alloc, settled, call, env, out)),
        Read::Expression(path, expression) => {
            let mut begun = begin_expression(alloc, &path, level.nesting, env)?;
            let value = eval_read(alloc, level, &expression, &mut begun, out, library);
            drop(begun);
            end_expression(alloc, value, call, env)
        }
    }
}

// The value of an expression that is read, in an environment of its own.
#[cycle(eval)]
#[tactic(auto, unfolding(gn_meaning::specs::Meaning::reads))]
fn eval_read<L: Library + Definer>(
    alloc: Global,
    level: Level,
    expression: &SubExpr,
    env: &mut Env,
    out: &mut Outcome,
    library: &mut L,
) -> Result<Value, EvalEnd>
    requires shallow { expr_depth expression.now ≤ max_tree_depth }
    ensures { Evaluates val_of (L.state library.old) (L.state library.new) result env.new out.new (λ a. reads level.room a expression.now env.old out.old) }
{
    let expression = expression.get();
    let Some(inside) = level.called(0) else {
        return Err(wrong(alloc, env, Code::Nesting, expression.first_position()).into());
    };
    eval_expr(alloc, inside, expression, env, out, library)
}

// The value of a call whose expression comes to this; a fault of the expression is one of the call.
fn end_expression(
    alloc: Global,
    value: Result<Value, EvalEnd>,
    call: &Call,
    env: &Env,
) -> Result<Option<Value>, EvalEnd>
    ensures { IsReadEnd (fault_in env.now.setting call.now.position Code.BadArguments (call.now.name ∷ [])) value result }
{
    match value {
        Ok(value) => Ok(Some(value)),
        Err(EvalEnd::Wrong(_)) => Err(refuse(alloc, call, env).into()),
        Err(EvalEnd::Spoiled(path, place)) => Err(EvalEnd::Spoiled(path, place)),
        Err(EvalEnd::Stopped) => Err(EvalEnd::Stopped),
        Err(EvalEnd::Memory) => Err(EvalEnd::Memory),
    }
}

// What the file comes to that is asked for by the values of the arguments; the name of the call nests so deep.
fn read_file<L: Library>(
    alloc: Global,
    values: &[Value],
    nesting: u32,
    call: &Call,
    env: &Env,
    out: &mut Outcome,
    library: &mut L,
) -> Result<Read, EvalEnd>
    ensures read { Evaluates read_view (L.state library.old) (L.state library.new) result env.now out.new (λ a. reading_runs a
        (map val_of values.now) nesting call.now env.now out.old) }
    ensures shallow { IfOk result IsShallowRead }
{
    let reading = begin_reading(alloc, values, nesting, call, env)?;
    read_content(alloc, &reading, call, env, out, library)
}

// The content of the file that is asked for. What is asked for is noted.
fn read_content<L: Library>(
    alloc: Global,
    reading: &Reading,
    call: &Call,
    env: &Env,
    out: &mut Outcome,
    library: &mut L,
) -> Result<Read, EvalEnd>
    ensures read { Evaluates read_view (L.state library.old) (L.state library.new) result env.now out.new
        (λ a. content_read reading.now.conversion reading.now.path a call.now env.now out.old) }
    ensures shallow { IfOk result IsShallowRead }
{
    let place = place_here(alloc, call.position, env)?;
    let told = library.bytes(alloc, &reading.path, &place);
    drop(place);
    match told {
        Ok(found) => Ok(read_found(alloc, found, reading, out)?),
        Err(stop) => Err(stop.into()),
    }
}

// What a file comes to that was asked for and of which this was found. What is asked for is noted.
fn read_found(
    alloc: Global,
    found: Found,
    reading: &Reading,
    out: &mut Outcome,
) -> Result<Read, AllocError>
    requires limit { IsWithinLimit found }
    ensures read { IfOk result (λ read. read_view read ≡ found_read reading.now.conversion reading.now.path (content_told found)) }
    ensures asked { OnOk result (out.new ≡ with_asked (content_of reading.now.path) out.old) }
    ensures shallow { IfOk result IsShallowRead }
{
    out.ask_content(&reading.path)?;
    match found {
        Found::Bytes(bytes) => read_bytes(alloc, reading, bytes.as_bytes()),
        Found::Absent => missing(alloc, Code::NoFile, &reading.path),
        Found::TooBig => missing(alloc, Code::FileTooBig, &reading.path),
    }
}
