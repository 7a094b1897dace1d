// The end of a block that declares arguments.

ghost use Rattle.std.specs.Prelude.{◌≡◌, ◌++◌, [], IfOk, map, option_map};
ghost use Rattle.gn_values.specs.View.{val_of};
ghost use Rattle.gn_items.specs.Effects.{with_declarations};
ghost use Rattle.gn_env.specs.Arguments.{argument_state};
ghost use Rattle.gn_meaning.specs.Declaring.{declaration_of, arguments_end_runs};
ghost use Rattle.gn_steps.specs.Ends.{IsStep};

use gn_env::{Argument, Env, GiveError};
use gn_faults::Code;
use gn_items::{Declaration, Outcome};
use gn_paths::Place;
use gn_steps::{StepEnd, wrong_with};
use gn_tree::Position;
use gn_values::Value;
use std::alloc::{AllocError, Global};

// An argument as what the execution declares.
fn declaration_of(alloc: Global, argument: Argument, env: &Env) -> Result<Declaration, AllocError>
    ensures { IfOk result (λ d. d ≡ declaration_of env.now.setting (argument_state argument)) }
{
    let Argument { name, position, .. } = argument;
    let file = env.file().copy(alloc)?;
    Ok(Declaration {
        name,
        place: Place {
            file,
            line: position.line,
            column: position.column,
        },
    })
}

// The same of each of these.
fn declarations_of(
    alloc: Global,
    arguments: Vec<Argument>,
    env: &Env,
) -> Result<Vec<Declaration>, AllocError>
    ensures { IfOk result (λ ds. ds.items ≡ map (declaration_of env.now.setting) (map argument_state arguments.items)) }
{
    let mut declarations = Vec::new(alloc);
    for argument in arguments {
        declarations.push(declaration_of(alloc, argument, env)?)?;
    }
    Ok(declarations)
}

/// The end of a block of `declare_args`, whose call stands at the position: each name of the block takes the value that it is
/// given under the toolchain, or else its default, and is set around the block; `out` has the arguments then. `Wrong` has
/// `AlreadySet` at the call, with the first of the names that is set around the block already.
#[tactic(auto, unfolding(gn_meaning::specs::Declaring::arguments_end_runs))]
pub(crate) fn end_arguments(
    alloc: Global,
    position: Position,
    env: &mut Env,
    out: &mut Outcome,
) -> Result<Option<Value>, StepEnd>
    ensures { IsStep (option_map val_of) result env.new out.new (arguments_end_runs position env.old out.old) }
{
    match env.declare_arguments(alloc, position) {
        Ok(arguments) => {
            let declarations = declarations_of(alloc, arguments, env)?;
            out.declare(declarations)?;
            Ok(None)
        }
        Err(GiveError::AlreadySet(name)) => {
            Err(wrong_with(alloc, env, Code::AlreadySet, position, &name))
        }
        Err(GiveError::Memory) => Err(StepEnd::Memory),
    }
}
