// Calls.

ghost use Rattle.std.specs.Prelude.{◌≡◌, ◌≤◌, [], map, option_map, Some, None};
ghost use Rattle.gn_tree.specs.Depth.{max_tree_depth, call_depth, body_depth};
ghost use Rattle.gn_tree.specs.Views.{call_of, body_of};
ghost use Rattle.gn_values.specs.View.{val_of};
ghost use Rattle.gn_environment.specs.Templates.{body_begins};
ghost use Rattle.gn_meaning.specs.Steps.{deeper, then_do};
ghost use Rattle.gn_meaning.specs.PlainCalls.{plain_runs};
ghost use Rattle.gn_meaning.specs.OpeningCalls.{body_run, opened_call_runs, valued_runs, opening_runs};
ghost use Rattle.gn_meaning.specs.FunctionCalls.{changing_runs, function_runs, built_in_runs, template_called_runs};
ghost use Rattle.gn_meaning.specs.Meaning.{world, calls, call_runs, body_runs, values_run};
ghost use Rattle.gn_calls_scopes.specs.Openings.{opener_view, opened_view};
ghost use Rattle.gn_eval.specs.Ends.{Evaluates};
ghost use Rattle.gn_eval.specs.Parts.{parts};

use crate::changing::change;
use crate::ending::{EvalEnd, lift};
use crate::expressions::eval_values;
use crate::level::Level;
use crate::library::Library;
use crate::reading::run_read_file;
use crate::special_calls::{run_defined, run_foreach};
use crate::statements::run_statements;
use gn_calls_plain::apply_plain;
use gn_calls_scopes::{
    Definer, Opened, Opener, accept, accept_template, begin_call, end_call, is_skipped,
};
use gn_definitions::Definition;
use gn_env::Env;
use gn_faults::Code;
use gn_functions::{Changing, Function, Plain};
use gn_items::Outcome;
use gn_paths::Text;
use gn_steps::{begins_with_invoker, evaluated, wrong};
use gn_tree::{Block, Call, Position};
use gn_values::Value;
use std::alloc::Global;
use std::sync::Arc;

/// A call, with its value where it has one: of the template in scope of that name, or else of the function of that name.
#[cycle(eval)]
#[tactic(auto, using(crate::proofs::CallParts::called))]
pub(crate) fn run_call<L: Library + Definer>(
    alloc: Global,
    level: Level,
    call: &Call,
    env: &mut Env,
    out: &mut Outcome,
    library: &mut L,
) -> Result<Option<Value>, EvalEnd>
    requires shallow { call_depth (call_of call.now) ≤ max_tree_depth }
    ensures { Evaluates (option_map val_of) (L.state library.old) (L.state library.new) result env.new out.new (λ a. call_runs (world level.room a) level.nesting
        (call_of call.now) env.old out.old) }
{
    match env.template(&call.name)? {
        Some(definition) => run_template(alloc, level, definition, call, env, out, library),
        None => run_built_in(alloc, level, call, env, out, library),
    }
}

// The call of a template.
#[cycle(eval)]
#[tactic(auto, unfolding(gn_meaning::specs::FunctionCalls::template_called_runs))]
fn run_template<L: Library + Definer>(
    alloc: Global,
    level: Level,
    definition: Arc<Definition>,
    call: &Call,
    env: &mut Env,
    out: &mut Outcome,
    library: &mut L,
) -> Result<Option<Value>, EvalEnd>
    requires shallow { call_depth (call_of call.now) ≤ max_tree_depth }
    ensures { Evaluates (option_map val_of) (L.state library.old) (L.state library.new) result env.new out.new (λ a. template_called_runs
        (calls level.room a) definition.value level.nesting call.now (parts (world level.room a) level.nesting call.now) env.old out.old) }
{
    let depth = accept_template(alloc, level.nesting, call, env)?;
    let opener = Opener::Template(definition, depth);
    run_opening(alloc, level, opener, call, env, out, library)
}

// The call of a function that is built in: what is judged before its arguments, and then what it does.
#[cycle(eval)]
#[tactic(auto, unfolding(gn_meaning::specs::FunctionCalls::built_in_runs))]
fn run_built_in<L: Library + Definer>(
    alloc: Global,
    level: Level,
    call: &Call,
    env: &mut Env,
    out: &mut Outcome,
    library: &mut L,
) -> Result<Option<Value>, EvalEnd>
    requires shallow { call_depth (call_of call.now) ≤ max_tree_depth }
    ensures { Evaluates (option_map val_of) (L.state library.old) (L.state library.new) result env.new out.new (λ a. built_in_runs a (calls level.room a) level.nesting
        (deeper level.nesting 1) call.now (parts (world level.room a) level.nesting call.now) env.old out.old) }
{
    let function = accept(alloc, level.nesting, call, env)?;
    run_function(alloc, level, function, call, env, out, library)
}

// The call of a function that is accepted.
#[cycle(eval)]
#[tactic(auto, unfolding(gn_meaning::specs::FunctionCalls::function_runs))]
fn run_function<L: Library + Definer>(
    alloc: Global,
    level: Level,
    function: Function,
    call: &Call,
    env: &mut Env,
    out: &mut Outcome,
    library: &mut L,
) -> Result<Option<Value>, EvalEnd>
    requires shallow { call_depth (call_of call.now) ≤ max_tree_depth }
    ensures { Evaluates (option_map val_of) (L.state library.old) (L.state library.new) result env.new out.new (λ a. function_runs a (calls level.room a) function level.nesting
        (deeper level.nesting 1) call.now (parts (world level.room a) level.nesting call.now) env.old out.old) }
{
    match function {
        Function::Plain(plain) => run_plain(alloc, level, plain, call, env, out, library),
        Function::Changing(changing) => {
            run_changing(alloc, level, changing, call, env, out, library)
        }
        Function::Opening(opening) => {
            if is_skipped(opening, env) {
                return Ok(None);
            }
            let opener = Opener::Function(opening);
            run_opening(alloc, level, opener, call, env, out, library)
        }
        Function::Defined => run_defined(alloc, level.deeper(1), call, env, out, library),
        Function::Foreach => run_foreach(alloc, level.deeper(1), call, env, out, library),
        Function::ReadFile => run_read_file(alloc, level, call, env, out, library),
    }
}

// The call of a function that needs nothing but the values of its arguments.
#[cycle(eval)]
fn run_plain<L: Library + Definer>(
    alloc: Global,
    level: Level,
    plain: Plain,
    call: &Call,
    env: &mut Env,
    out: &mut Outcome,
    library: &mut L,
) -> Result<Option<Value>, EvalEnd>
    requires shallow { call_depth (call_of call.now) ≤ max_tree_depth }
    ensures { Evaluates (option_map val_of) (L.state library.old) (L.state library.new) result env.new out.new (λ a. then_do
        (values_run (world level.room a) (deeper level.nesting 1) call.now.arguments [] env.old out.old) (λ vs env1 out1. plain_runs plain vs call.now env1 out1)) }
{
    let arguments = call.arguments.as_slice();
    let values = eval_values(alloc, level.deeper(1), arguments, env, out, library)?;
    lift(apply_plain(alloc, plain, &values, call, env, out))
}

// The call of a function that changes where it stands.
#[cycle(eval)]
#[tactic(auto, using(crate::proofs::CallParts::given_values))]
fn run_changing<L: Library + Definer>(
    alloc: Global,
    level: Level,
    changing: Changing,
    call: &Call,
    env: &mut Env,
    out: &mut Outcome,
    library: &mut L,
) -> Result<Option<Value>, EvalEnd>
    requires shallow { call_depth (call_of call.now) ≤ max_tree_depth }
    ensures { Evaluates (option_map val_of) (L.state library.old) (L.state library.new) result env.new out.new (λ a. changing_runs a changing (deeper level.nesting 1) call.now
        (parts (world level.room a) level.nesting call.now) env.old out.old) }
{
    let inside = level.deeper(1);
    let invoker = begins_with_invoker(changing, call, env);
    let arguments = evaluated(call, invoker);
    let values = eval_values(alloc, inside, arguments, env, out, library)?;
    change(
        alloc,
        changing,
        invoker,
        &values,
        inside.nesting,
        call,
        env,
        out,
        library,
    )
}

// The call of a function or of a template that opens a scope, runs its block in it, then its body, and closes it.
#[cycle(eval)]
#[tactic(auto, unfolding(gn_meaning::specs::OpeningCalls::opening_runs))]
fn run_opening<L: Library + Definer>(
    alloc: Global,
    level: Level,
    opener: Opener,
    call: &Call,
    env: &mut Env,
    out: &mut Outcome,
    library: &mut L,
) -> Result<Option<Value>, EvalEnd>
    requires shallow { call_depth (call_of call.now) ≤ max_tree_depth }
    ensures { Evaluates (option_map val_of) (L.state library.old) (L.state library.new) result env.new out.new (λ a. opening_runs (calls level.room a)
        (opener_view opener) level.nesting call.now (parts (world level.room a) level.nesting call.now).values (parts (world level.room a) level.nesting call.now).block env.old out.old) }
{
    let arguments = call.arguments.as_slice();
    let values = eval_values(alloc, level.deeper(1), arguments, env, out, library)?;
    run_valued(alloc, level, opener, &values, call, env, out, library)
}

// The same with the values of the arguments.
#[cycle(eval)]
#[tactic(auto, unfolding(gn_meaning::specs::OpeningCalls::valued_runs))]
fn run_valued<L: Library + Definer>(
    alloc: Global,
    level: Level,
    opener: Opener,
    values: &[Value],
    call: &Call,
    env: &mut Env,
    out: &mut Outcome,
    library: &mut L,
) -> Result<Option<Value>, EvalEnd>
    requires shallow { call_depth (call_of call.now) ≤ max_tree_depth }
    ensures { Evaluates (option_map val_of) (L.state library.old) (L.state library.new) result env.new out.new (λ a. valued_runs (calls level.room a) (opener_view opener)
        (map val_of values.now) level.nesting call.now (parts (world level.room a) level.nesting call.now).block env.old out.old) }
{
    let opened = begin_call(alloc, opener, values, level.nesting, call, env)?;
    run_opened(alloc, level, opened, call, env, out, library)
}

// What is done where the scope of a call is open: its block runs, then its body, and it is closed.
#[cycle(eval)]
#[tactic(auto, unfolding(gn_meaning::specs::OpeningCalls::opened_call_runs))]
fn run_opened<L: Library + Definer>(
    alloc: Global,
    level: Level,
    opened: Opened,
    call: &Call,
    env: &mut Env,
    out: &mut Outcome,
    library: &mut L,
) -> Result<Option<Value>, EvalEnd>
    requires shallow { call_depth (call_of call.now) ≤ max_tree_depth }
    ensures { Evaluates (option_map val_of) (L.state library.old) (L.state library.new) result env.new out.new (λ a. opened_call_runs (calls level.room a)
        (opened_view opened) call.now.position (parts (world level.room a) level.nesting call.now).block env.old out.old) }
{
    run_block_of(alloc, level.deeper(1), &call.block, env, out, library)?;
    run_body(alloc, level, &opened, call.position, env, out, library)?;
    lift(end_call(alloc, opened, call.position, env, out, library))
}

/// The block behind a call, if there is one.
#[cycle(eval)]
#[tactic(auto, unfolding(gn_meaning::specs::Meaning::body_runs))]
pub(crate) fn run_block_of<L: Library + Definer>(
    alloc: Global,
    level: Level,
    block: &Option<Block>,
    env: &mut Env,
    out: &mut Outcome,
    library: &mut L,
) -> Result<(), EvalEnd>
    requires shallow { body_depth (body_of block.now) ≤ max_tree_depth }
    ensures { Evaluates (λ u. u) (L.state library.old) (L.state library.new) result env.new out.new (λ a. body_runs (world level.room a) level.nesting
        (body_of block.now) env.old out.old) }
{
    match block {
        Some(block) => run_statements(alloc, level, block, env, out, library),
        None => Ok(()),
    }
}

// The body of a template, where a template is open.
#[cycle(eval)]
fn run_body<L: Library + Definer>(
    alloc: Global,
    level: Level,
    opened: &Opened,
    position: Position,
    env: &mut Env,
    out: &mut Outcome,
    library: &mut L,
) -> Result<(), EvalEnd>
    ensures { Evaluates (λ u. u) (L.state library.old) (L.state library.new) result env.new out.new (λ a. body_run (calls level.room a)
        (opened_view opened.now) position env.old out.old) }
{
    match opened {
        Opened::Template {
            definition,
            name,
            ..
        } => { run_template_body(alloc, level, definition, name, position, env, out, library) }
        Opened::Item { .. } | Opened::Defaults { .. } | Opened::Arguments => Ok(()),
    }
}

// The body of a template, in what its definition keeps.
#[cycle(eval)]
#[tactic(auto, unfolding(gn_meaning::specs::Meaning::calls))]
fn run_template_body<L: Library + Definer>(
    alloc: Global,
    level: Level,
    definition: &Arc<Definition>,
    name: &Text,
    position: Position,
    env: &mut Env,
    out: &mut Outcome,
    library: &mut L,
) -> Result<(), EvalEnd>
    ensures { Evaluates (λ u. u) (L.state library.old) (L.state library.new) result env.new out.new (λ a. calls level.room a definition.now.value position
        (body_begins definition.now.value name.now env.old) out.old) }
{
    env.begin_body(alloc, definition.clone()?, name)?;
    let Some(inside) = level.called(definition.nesting()) else {
        return Err(wrong(alloc, env, Code::Nesting, position).into());
    };
    run_statements(alloc, inside, definition.block(), env, out, library)
}
