// Faults where an evaluation takes place.

ghost use Rattle.std.specs.Prelude.{◌≡◌, [], ◌∷◌, IfOk};
ghost use Rattle.gn_environment.specs.Faults.{fault_in};
ghost use Rattle.gn_meaning.specs.Words.{code_of, element_detail};
ghost use Rattle.gn_values.specs.View.{val_of};
ghost use Rattle.gn_steps.specs.Ends.{IsFault, IsRefusal};

use crate::step::StepEnd;
use gn_env::Env;
use gn_faults::{Code, Fault};
use gn_paths::{Place, Text, Texts};
use gn_tree::Position;
use gn_values::{Value, ValueError, print_text};
use std::alloc::{AllocError, Global};

// The fault with this code and one detail at a position of the file that is evaluated.
fn fault_with(
    alloc: Global,
    env: &Env,
    code: Code,
    position: Position,
    detail: &[u8],
) -> Result<Fault, AllocError>
    ensures { IfOk result (λ f. f ≡ fault_in env.now.setting position code (detail.now ∷ [])) }
{
    let text = Text::from_bytes(alloc, detail)?;
    let mut details = Texts::new(alloc);
    details.push(text)?;
    env.fault(alloc, code, position, details)
}

/// The end of an evaluation with a fault without details, at a position of the file that is evaluated; or want of
/// memory.
pub fn wrong(alloc: Global, env: &Env, code: Code, position: Position) -> StepEnd
    ensures { IsFault result (fault_in env.now.setting position code []) }
{
    match env.fault(alloc, code, position, Texts::new(alloc)) {
        Ok(fault) => StepEnd::Wrong(fault),
        Err(_) => StepEnd::Memory,
    }
}

/// The end of an evaluation with a fault that has one detail, at a position of the file that is evaluated; or want of
/// memory.
pub fn wrong_with(
    alloc: Global,
    env: &Env,
    code: Code,
    position: Position,
    detail: &Text,
) -> StepEnd
    ensures { IsFault result (fault_in env.now.setting position code (detail.now ∷ [])) }
{
    match fault_with(alloc, env, code, position, detail.as_bytes()) {
        Ok(fault) => StepEnd::Wrong(fault),
        Err(_) => StepEnd::Memory,
    }
}

/// The end of an evaluation at a name that nothing read and whose last assignment stands at the position: `NoEffect`
/// there, with the name as its detail; or want of memory.
pub fn no_effect(alloc: Global, env: &Env, position: Position, name: &[u8]) -> StepEnd
    ensures { IsFault result (fault_in env.now.setting position Code.NoEffect (name.now ∷ [])) }
{
    match fault_with(alloc, env, Code::NoEffect, position, name) {
        Ok(fault) => StepEnd::Wrong(fault),
        Err(_) => StepEnd::Memory,
    }
}

// The fault of a name that nothing read, in another file.
fn fault_elsewhere(
    alloc: Global,
    env: &Env,
    file: &Text,
    position: Position,
    name: &[u8],
) -> Result<Fault, AllocError>
    ensures { IfOk result (λ f. f
        ≡ fault_in (record env.now.setting { file = file.now }) position Code.NoEffect (name.now ∷ [])) }
{
    let elsewhere = file.copy(alloc)?;
    let mut fault = fault_with(alloc, env, Code::NoEffect, position, name)?;
    fault.place = Some(Place {
        file: elsewhere,
        line: position.line,
        column: position.column,
    });
    Ok(fault)
}

/// The end of an evaluation at a name that nothing read and whose last assignment stands at a position of another file: `NoEffect`
/// there, with the name as its detail; or want of memory.
pub fn no_effect_in(
    alloc: Global,
    env: &Env,
    file: &Text,
    position: Position,
    name: &[u8],
) -> StepEnd
    ensures { IsFault result
        (fault_in (record env.now.setting { file = file.now }) position Code.NoEffect (name.now ∷ [])) }
{
    match fault_elsewhere(alloc, env, file, position, name) {
        Ok(fault) => StepEnd::Wrong(fault),
        Err(_) => StepEnd::Memory,
    }
}

// The code of what an operator refuses.
fn code_of(error: ValueError) -> Code
    ensures { result ≡ code_of error }
{
    match error {
        ValueError::BadTypes => Code::BadTypes,
        ValueError::Overflow => Code::Overflow,
        ValueError::NotInList => Code::NotInList,
        ValueError::BadIndex => Code::BadIndex,
        ValueError::Undefined => Code::Undefined,
        ValueError::TooLong | ValueError::Memory => Code::TooLong,
    }
}

/// The end of an evaluation whose operator refuses, at its position: a fault with the code of what it refuses, without details;
/// or want of memory, where that is what the operator answers.
pub fn refused(alloc: Global, env: &Env, error: ValueError, position: Position) -> StepEnd
    ensures { IsRefusal error result (fault_in env.now.setting position (code_of error) []) }
{
    match error {
        ValueError::Memory => StepEnd::Memory,
        _ => wrong(alloc, env, code_of(error), position),
    }
}

// An absent entry of the scope, with the subscript as its name.
fn absent(alloc: Global, env: &Env, at: &Value, position: Position) -> StepEnd
    ensures { IsFault result (fault_in env.now.setting position (code_of ValueError.Undefined) (element_detail ValueError.Undefined (val_of at.now))) }
{
    match print_text(alloc, at, false) {
        Ok(name) => wrong_with(alloc, env, Code::Undefined, position, &name),
        Err(_) => StepEnd::Memory,
    }
}

/// The end of an evaluation whose subscript finds no element, at the position of the subscript: a fault with the code of what is
/// refused, whose detail, where the scope has no such entry, is the text of the subscript; or want of memory.
pub fn refused_element(
    alloc: Global,
    env: &Env,
    error: ValueError,
    at: &Value,
    position: Position,
) -> StepEnd
    ensures { IsRefusal error result (fault_in env.now.setting position (code_of error) (element_detail error (val_of at.now))) }
{
    match error {
        ValueError::Undefined => absent(alloc, env, at, position),
        _ => refused(alloc, env, error, position),
    }
}
