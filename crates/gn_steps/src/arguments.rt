// The arguments of a call.

ghost use Rattle.std.specs.Prelude.{◌≡◌, [], ◌∷◌, if◌then◌else◌};
ghost use Rattle.gn_tree.specs.Views.{expr_of, exprs_of};
ghost use Rattle.gn_environment.specs.Faults.{fault_in};
ghost use Rattle.gn_meaning.specs.Arguments.{at_argument};
ghost use Rattle.gn_meaning.specs.Selections.{is_bare_invoker};
ghost use Rattle.gn_meaning.specs.ChangingCalls.{takes_invoker, begins_with_invoker};
ghost use Rattle.gn_steps.specs.Ends.{IsFault};
ghost use Rattle.gn_steps.specs.Evaluated.{without_first};

use crate::faults::wrong_with;
use crate::step::StepEnd;
use gn_env::Env;
use gn_faults::Code;
use gn_functions::Changing;
use gn_tree::{Call, Expr, Position};
use std::alloc::Global;

/// Where the argument of this number stands, counted from 0, or the name of the call, where there is no such argument.
pub fn argument_position(call: &Call, number: usize) -> Position
    ensures { result ≡ at_argument call.now number }
{
    let arguments = call.arguments.as_slice();
    if number >= arguments.len() {
        return call.position;
    }
    arguments[number].first_position()
}

/// The end of an evaluation in which a call has other arguments than it takes, or a block that it doesn't take: `BadArguments`
/// at the call, with its name as the detail; or want of memory.
pub fn refuse(alloc: Global, call: &Call, env: &Env) -> StepEnd
    ensures { IsFault result (fault_in env.now.setting call.now.position Code.BadArguments (call.now.name ∷ [])) }
{
    wrong_with(alloc, env, Code::BadArguments, call.position, &call.name)
}

// Whether an expression is the bare name of the invoker.
fn is_bare_invoker(expr: &Expr, env: &Env) -> bool
    ensures { result ≡ is_bare_invoker (expr_of expr.now) env.now }
{
    match expr {
        Expr::Name { name, .. } => env.is_invoker(name),
        _ => false,
    }
}

// Whether the first argument may be the invoker itself.
fn takes_invoker(changing: Changing) -> bool
    ensures { result ≡ takes_invoker changing }
{
    match changing {
        Changing::Import | Changing::Template | Changing::SetDefaultToolchain => false,
        Changing::ForwardVariablesFrom | Changing::NotNeeded => true,
    }
}

/// Whether the first argument of the call is the invoker itself, which isn't evaluated then.
#[tactic(auto, unfolding(gn_meaning::specs::ChangingCalls::begins_with_invoker))]
pub fn begins_with_invoker(changing: Changing, call: &Call, env: &Env) -> bool
    ensures { result ≡ begins_with_invoker changing call.now.arguments env.now }
{
    match call.arguments.as_slice() {
        [first, ..] => takes_invoker(changing) && is_bare_invoker(first, env),
        _ => false,
    }
}

/// The arguments of the call that are evaluated: all of them, or all but the first.
pub fn evaluated(call: &Call, but_first: bool) -> &[Expr]
    ensures { exprs_of result.now ≡ (if but_first then without_first call.now.arguments else call.now.arguments) }
{
    match call.arguments.as_slice() {
        [_, rest @ ..] if but_first => rest,
        all => all,
    }
}
