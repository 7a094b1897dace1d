// Statements that import a file whose path is written out.

ghost use Rattle.std.specs.Prelude.{◌≡◌, ◌<◌, IfSome, None, Some, Err, true, false};
ghost use Rattle.gn_tree.specs.Views.{statement_of};
ghost use Rattle.gn_values.specs.Val.{vstr};
ghost use Rattle.gn_items.specs.Effects.{Effects};
ghost use Rattle.gn_runs.specs.Runs.{Answers};
ghost use Rattle.gn_environment.specs.Templates.{template_of};
ghost use Rattle.gn_functions.specs.declared.function.Function.TheVariants.{Changing as OfChanging};
ghost use Rattle.gn_functions.specs.declared.function.Changing.TheVariants.{Import};
ghost use Rattle.gn_meaning.specs.Arguments.{at_argument};
ghost use Rattle.gn_meaning.specs.FunctionCalls.{accepted_runs};
ghost use Rattle.gn_meaning.specs.Imports.{imported_runs};
ghost use Rattle.gn_meaning.specs.Steps.{max_evaluation_depth, ends};
ghost use Rattle.gn_meaning.specs.Meaning.{world, statement_runs};
ghost use Rattle.gn_calls_scopes.specs.Resolved.{path_asked};
ghost use Rattle.gn_eval.specs.Library.{GoesOn};
ghost use Rattle.gn_outermost.specs.Lacking.{IsImportOf, NeedsOver};

use crate::written::written_argument;
use gn_calls_scopes::{accept, resolve_import};
use gn_env::Env;
use gn_eval::{LibStop, Library};
use gn_functions::{Changing, Function};
use gn_paths::{Path, Text};
use gn_steps::{argument_position, place_here};
use gn_tree::{Call, Position, Statement};
use gn_values::Value;
use std::alloc::Global;

// Whether a name means no template, as far as memory lasts.
fn means_no_template(name: &Text, env: &Env) -> bool
    ensures { result ≡ true → template_of name.now env.now ≡ None }
{
    match env.template(name) {
        Ok(None) => true,
        Ok(Some(_)) => false,
        Err(_) => false,
    }
}

// Whether a call that isn't one of a template is an import that is accepted in the outermost block.
fn is_import(alloc: Global, call: &Call, env: &Env) -> bool
    ensures { result ≡ true → (out : Effects) → accepted_runs 0 call.now env.now out ≡ ends (OfChanging Import) env.now out }
{
    match accept(alloc, 0, call, env) {
        Ok(Function::Changing(Changing::Import)) => true,
        Ok(_) => false,
        Err(_) => false,
    }
}

// The path that a text as the argument of an import means, where it means one.
fn path_meant(alloc: Global, text: &Text, call: &Call, env: &Env) -> Option<Path>
    ensures { IfSome result (λ path. (a : Answers) (out : Effects) → imported_runs a (vstr text.now) (at_argument call.now 0) call.now.position env.now out
        ≡ path_asked path a (at_argument call.now 0) call.now.position env.now out) }
{
    let Ok(copy) = text.copy(alloc) else {
        return None;
    };
    let argument = Value::Str(copy);
    match resolve_import(alloc, &argument, argument_position(call, 0), env) {
        Ok(path) => Some(path),
        Err(_) => None,
    }
}

// The path that an import with this argument asks for.
fn asked_path(alloc: Global, text: &Text, call: &Call, env: &Env) -> Option<Path>
    ensures template { IfSome result (λ path. template_of call.now.name env.now ≡ None) }
    ensures accepted { IfSome result (λ path. (out : Effects) → accepted_runs 0 call.now env.now out ≡ ends (OfChanging Import) env.now out) }
    ensures path { IfSome result (λ path. (a : Answers) (out : Effects) → imported_runs a (vstr text.now) (at_argument call.now 0) call.now.position env.now out
        ≡ path_asked path a (at_argument call.now 0) call.now.position env.now out) }
{
    if !means_no_template(&call.name, env) {
        return None;
    }
    if !is_import(alloc, call, env) {
        return None;
    }
    path_meant(alloc, text, call, env)
}

// The path of the file that a call imports in the outermost block, where the path is written out.
#[tactic(auto, using(crate::proofs::PlainImports::asks_for))]
fn imported_path(alloc: Global, call: &Call, env: &Env) -> Option<Path>
    ensures { IfSome result (λ path. IsImportOf call.now path env.now) }
{
    match written_argument(call) {
        Some(text) => asked_path(alloc, text, call, env),
        None => None,
    }
}

// Whether the library lacks what the import of the file at a path needs, for a call at the position.
#[tactic(auto, using(crate::proofs::PlainImports::path_lacks))]
fn lacks<L: Library>(
    alloc: Global,
    path: &Path,
    position: Position,
    env: &Env,
    library: &mut L,
) -> bool
    ensures goes { GoesOn (L.state library.old) (L.state library.new) }
    ensures rose { result ≡ true → (L.state library.old).stops < (L.state library.new).stops }
    ensures needs { result ≡ true → (at : Position) (a : Answers) (out : Effects) → (L.state library.new).told ≡ Some a → NeedsOver (L.state library.new).need out.asked (path_asked path.now a at position env.now out) }
{
    let Ok(place) = place_here(alloc, position, env) else {
        return false;
    };
    match library.import(alloc, path, &place) {
        Ok(_) => false,
        Err(LibStop::Stopped) => true,
        Err(LibStop::Memory) => false,
    }
}

/// Whether a statement is an import whose path is written out, and the library lacks what it needs. It hasn't begun then: over just
/// what the library tells, its run in the outermost block needs what was noted.
pub(crate) fn lacks_import<L: Library>(
    alloc: Global,
    statement: &Statement,
    env: &Env,
    library: &mut L,
) -> bool
    ensures goes { GoesOn (L.state library.old) (L.state library.new) }
    ensures rose { result ≡ true → (L.state library.old).stops < (L.state library.new).stops }
    ensures needs { result ≡ true → (a : Answers) (out : Effects) → (L.state library.new).told ≡ Some a → NeedsOver (L.state library.new).need out.asked
        (statement_runs (world max_evaluation_depth a) 0 (statement_of statement.now) env.now out) }
{
    match statement {
        Statement::Assignment { .. } => false,
        Statement::Condition(_) => false,
        Statement::Call(call) => match imported_path(alloc, call, env) {
            Some(path) => lacks(alloc, &path, call.position, env, library),
            None => false,
        },
    }
}
