// What is judged of a call before its arguments.

ghost use Rattle.std.specs.Prelude.{◌≡◌, is_some};
ghost use Rattle.gn_tree.specs.Counts.{expr_count};
ghost use Rattle.gn_items.specs.Effects.{Effects};
ghost use Rattle.gn_meaning.specs.FunctionCalls.{allowed_here, ruled_runs, accepted_runs, template_accepted_runs, is_skipped};
ghost use Rattle.gn_functions.specs.Rules.{takes, rule_of};
ghost use Rattle.gn_steps.specs.Ends.{IsStep};

use crate::imports::allows_import;
use crate::items::{allows, allows_arguments, asks_for_files, is_build_configuration};
use crate::templates::open_call;
use gn_env::Env;
use gn_faults::Code;
use gn_functions::{Allowed, Function, Named, Opening, Rule};
use gn_items::ItemKind;
use gn_steps::{StepEnd, refuse, wrong, wrong_with};
use gn_tree::Call;
use std::alloc::Global;

// Whether a function may be called here.
fn is_allowed(allowed: Allowed, env: &Env) -> bool
    ensures { result ≡ allowed_here allowed env.now }
{
    match allowed {
        Allowed::Everywhere => true,
        Allowed::WhereItems(kind) => allows(kind, env),
        Allowed::WhereFiles => asks_for_files(env.kind()),
        Allowed::WhereArguments => allows_arguments(env),
        Allowed::InBuildConfiguration => is_build_configuration(env.kind()),
    }
}

// Whether the call has the number of arguments and the block that the rule says.
fn is_taken(rule: Rule, call: &Call) -> bool
    ensures { result ≡ takes rule (expr_count call.now.arguments) (is_some call.now.block) }
{
    rule.takes(call.arguments.as_slice().len(), call.block.is_some())
}

// Judges the call of a function by its rule.
#[tactic(auto, unfolding(gn_meaning::specs::FunctionCalls::ruled_runs))]
fn accept_function(
    alloc: Global,
    function: Function,
    nesting: u32,
    call: &Call,
    env: &Env,
) -> Result<Function, StepEnd>
    ensures { (out : Effects) → IsStep (λ f. f) result env.now out (ruled_runs function (rule_of function) nesting call.now env.now out) }
{
    let rule = function.rule();
    if !is_allowed(rule.allowed, env) {
        return Err(wrong_with(alloc, env, Code::NotAllowedHere, call.position, &call.name));
    }
    if !is_taken(rule, call) {
        return Err(refuse(alloc, call, env));
    }
    if rule.imports && !allows_import(nesting, env) {
        return Err(wrong(alloc, env, Code::Nesting, call.position));
    }
    Ok(function)
}

/// The function that the name of the call calls, once what is judged before its arguments is judged; its name nests so deep
/// in its file. `Wrong` has, at the call, `Excluded` or `UnknownFunction` for the name, then `NotAllowedHere`, then
/// `BadArguments` for the number of arguments or the block, then `Nesting`.
#[tactic(auto, unfolding(gn_meaning::specs::FunctionCalls::accepted_runs))]
pub fn accept(alloc: Global, nesting: u32, call: &Call, env: &Env) -> Result<Function, StepEnd>
    ensures { (out : Effects) → IsStep (λ f. f) result env.now out (accepted_runs nesting call.now env.now out) }
{
    match Named::of(call.name.as_bytes()) {
        Named::Function(function) => accept_function(alloc, function, nesting, call, env),
        Named::Excluded => {
            Err(wrong_with(alloc, env, Code::Excluded, call.position, &call.name))
        }
        Named::Unknown => {
            Err(wrong_with(alloc, env, Code::UnknownFunction, call.position, &call.name))
        }
    }
}

/// The depth of the evaluation before the call of a template, which is open from here on; its name nests so deep in its file.
/// `Wrong` has, at the call, `BadArguments` for the number of arguments or the block, then `Nesting` where the evaluation would
/// be too deep.
#[tactic(auto, unfolding(gn_meaning::specs::FunctionCalls::template_accepted_runs))]
pub fn accept_template(
    alloc: Global,
    nesting: u32,
    call: &Call,
    env: &mut Env,
) -> Result<usize, StepEnd>
    ensures { (out : Effects) → IsStep (λ d. d) result env.new out (template_accepted_runs nesting call.now env.old out) }
{
    if !is_taken(Rule::of_template(), call) {
        return Err(refuse(alloc, call, env));
    }
    let depth = env.depth();
    match open_call(alloc, nesting, call.position, env) {
        Ok(()) => Ok(depth),
        Err(end) => Err(end),
    }
}

/// Whether the call of a function that opens a scope is skipped whole, so that neither its arguments nor its block are evaluated:
/// that of a toolchain is, under another toolchain than the default one.
pub fn is_skipped(opening: Opening, env: &Env) -> bool
    ensures { result ≡ is_skipped opening env.now }
{
    match opening {
        Opening::Item(ItemKind::Toolchain) => {
            let context = env.context();
            context.toolchain != context.default_toolchain
        }
        _ => false,
    }
}
