// Imports: the path of the argument, and what merging does.

ghost use Rattle.std.specs.Prelude.{◌≡◌, ◌+◌, not, nat_lt, option_map};
ghost use Rattle.gn_items.specs.Effects.{Effects};
ghost use Rattle.gn_runs.specs.Runs.{Answers};
ghost use Rattle.gn_tree.specs.declared.position.Position.{Position};
ghost use Rattle.gn_values.specs.View.{val_of};
ghost use Rattle.gn_environment.specs.Declaring.{import_brought};
ghost use Rattle.gn_meaning.specs.Imports.{max_import_nesting, merged_to, imported_runs};
ghost use Rattle.gn_steps.specs.Ends.{IsStep};
ghost use Rattle.gn_calls_scopes.specs.Resolved.{IsResolved};

use gn_definitions::ImportValue;
use gn_env::{Env, MergeError};
use gn_faults::Code;
use gn_paths::{Path, path_meant};
use gn_steps::{StepEnd, path_code, wrong, wrong_with};
use gn_tree::Position;
use gn_values::Value;
use std::alloc::Global;

/// The path of the file that an argument of `import` names, which stands at `at`: it is resolved from the current
/// directory, and is none of the system. `Wrong` has, at the argument, `BadTypes` where it is no string, `AboveRoot`
/// where the path leads out of the source tree, or `BadPath` where it is no path or one of the system.
#[tactic(auto, unfolding(gn_meaning::specs::Imports::imported_runs))]
pub fn resolve_import(
    alloc: Global,
    argument: &Value,
    at: Position,
    env: &Env,
) -> Result<Path, StepEnd>
    ensures { (a : Answers) (position : Position) (out : Effects) → IsResolved result a (val_of argument.now) at position env.now out }
{
    let Value::Str(text) = argument else {
        return Err(wrong(alloc, env, Code::BadTypes, at));
    };
    match path_meant(alloc, env.directory(), text.as_bytes())? {
        Ok(path) if path.is_system() => Err(wrong(alloc, env, Code::BadPath, at)),
        Ok(path) => Ok(path),
        Err(fault) => Err(wrong(alloc, env, path_code(fault), at)),
    }
}

/// Merges what an import left into the innermost scope, which declares the names of its variables if it declares names. `Wrong` has `Conflict` at the call, with the first name at
/// which the scope has something else.
pub fn merge_import(
    alloc: Global,
    value: ImportValue,
    position: Position,
    env: &mut Env,
) -> Result<Option<Value>, StepEnd>
    ensures { (out : Effects) → IsStep (option_map val_of) result env.new out (merged_to (import_brought position value env.old) position env.old out) }
{
    match env.bring_import(alloc, &value, position) {
        Ok(()) => Ok(None),
        Err(MergeError::Conflict(name)) => {
            Err(wrong_with(alloc, env, Code::Conflict, position, &name))
        }
        Err(MergeError::Memory) => Err(StepEnd::Memory),
    }
}

// How deep an import may nest, with the depth of the evaluation.
const MAX_IMPORT_NESTING: usize = 4;

/// Whether an import may stand so deep: the depth of the evaluation and how deep the call nests in its file together.
pub(crate) fn allows_import(nesting: u32, env: &Env) -> bool
    ensures { result ≡ not (nat_lt max_import_nesting (nesting + env.now.depth)) }
{
    env.depth().saturating_add(nesting as usize) <= MAX_IMPORT_NESTING
}
