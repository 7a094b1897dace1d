// Plain calls: those that need nothing but the values of their arguments, where they stand and what has been defined before.

ghost use Rattle.std.specs.Prelude.{◌≡◌, [], ◌∷◌, Some, None, false, IfOk, OnOk, map, option_map, codes};
ghost use Rattle.std.specs.List.{join_by};
ghost use Rattle.gn_values.specs.Text.{text_of};
ghost use Rattle.gn_environment.specs.Faults.{fault_in};
ghost use Rattle.gn_values.specs.View.{val_of};
ghost use Rattle.gn_calls_text.specs.Answers.{Settled as Answered};
ghost use Rattle.gn_calls_text.specs.Calls.{text_call};
ghost use Rattle.gn_calls_text.specs.Views.{Settles};
ghost use Rattle.gn_calls_path.specs.Calls.{path_call};
ghost use Rattle.gn_items.specs.Effects.{with_written};
ghost use Rattle.gn_meaning.specs.Imports.{place_here};
ghost use Rattle.gn_meaning.specs.Items.{where_here};
ghost use Rattle.gn_meaning.specs.Outputs.{target_outputs};
ghost use Rattle.gn_meaning.specs.PlainCalls.{refuses, wrong_type, assert_answer, line_of, refusal, settled_of, answer, refused_position, settled_runs, plain_runs};
ghost use Rattle.gn_steps.specs.Ends.{IsFault, IsStep};
ghost use Rattle.gn_calls_plain.specs.Answers.{settled_view};

use crate::outputs::get_target_outputs;
use crate::writes::answer_write;
use gn_calls_path::{PathCall, call_path};
use gn_calls_text::{CallError, TextCall, call_text};
use gn_env::Env;
use gn_faults::Code;
use gn_functions::Plain;
use gn_items::{Outcome, Written};
use gn_paths::{Path, Text, Texts};
use gn_steps::{StepEnd, argument_position, place_here, refuse, where_here};
use gn_tree::{Call, Position};
use gn_values::{Value, print_text};
use std::alloc::{AllocError, Global};

/// What a plain call answers.
#[derive(Drop)]
pub enum Settled {
    /// A value.
    Value(Value),
    /// Nothing.
    Nothing,
    /// A line that is printed.
    Line(Text),
    /// A file that is written: its path and what it holds.
    File(Path, Text),
    /// A refusal with its code and details, at the argument of this number, counted from 0, or at the name of the call.
    Refused(Code, Option<u32>, Texts),
    /// A refusal of values that the call doesn't take, as of a wrong number of arguments.
    RefusedValues,
}

/// A refusal with this code at an argument, without details.
pub(crate) fn refused_at(alloc: Global, code: Code, argument: u32) -> Settled
    ensures { settled_view result ≡ refuses code (Some argument) [] }
{
    Settled::Refused(code, Some(argument), Texts::new(alloc))
}

/// An argument of a wrong type.
pub(crate) fn wrong_type(alloc: Global, argument: u32) -> Settled
    ensures { settled_view result ≡ wrong_type argument }
{
    refused_at(alloc, Code::BadTypes, argument)
}

// An assertion without a message that fails.
fn failed(alloc: Global) -> Settled
    ensures { settled_view result ≡ refuses Code.AssertFailed None [] }
{
    Settled::Refused(Code::AssertFailed, None, Texts::new(alloc))
}

// An assertion that fails with this message.
fn failed_with(alloc: Global, message: &Text) -> Result<Settled, AllocError>
    ensures { IfOk result (λ s. settled_view s ≡ refuses Code.AssertFailed None (message.now ∷ [])) }
{
    let mut details = Texts::new(alloc);
    details.push(message.copy(alloc)?)?;
    Ok(Settled::Refused(Code::AssertFailed, None, details))
}

// `assert`
#[tactic(auto, unfolding(gn_meaning::specs::PlainCalls::assert_answer))]
fn answer_assert(alloc: Global, values: &[Value]) -> Result<Settled, AllocError>
    ensures { IfOk result (λ s. settled_view s ≡ assert_answer (map val_of values.now)) }
{
    match values {
        [Value::Bool(true)] | [Value::Bool(true), Value::Str(_)] => Ok(Settled::Nothing),
        [Value::Bool(false)] => Ok(failed(alloc)),
        [Value::Bool(false), Value::Str(text)] => failed_with(alloc, text),
        [Value::Bool(_), _, ..] => Ok(wrong_type(alloc, 1)),
        _ => Ok(wrong_type(alloc, 0)),
    }
}

// The line of a `print`: the texts of the values with a blank between two, and a newline.
#[tactic(auto, unfolding(gn_meaning::specs::PlainCalls::line_of))]
fn print_line(alloc: Global, values: &[Value]) -> Result<Text, AllocError>
    ensures { IfOk result (λ line. line ≡ line_of (map val_of values.now)) }
{
    let mut line = match values {
        [first, rest @ ..] => print_texts(alloc, first, rest)?,
        _ => Text::new(alloc),
    };
    line.push(b'\n')?;
    Ok(line)
}

// The texts of the values with a blank between two.
fn print_texts(alloc: Global, first: &Value, rest: &[Value]) -> Result<Text, AllocError>
    ensures { IfOk result (λ line. line ≡ join_by (text_of false) (codes " ") (val_of first.now ∷ map val_of rest.now)) }
{
    let mut line = print_text(alloc, first, false)?;
    for value in rest {
        line.push(b' ')?;
        line.append(print_text(alloc, value, false)?.as_bytes())?;
    }
    Ok(line)
}

// What a call refuses that another crate answers.
fn refusal(alloc: Global, code: Code, argument: Option<u32>) -> Settled
    ensures { settled_view result ≡ refusal code argument }
{
    match code {
        Code::BadArguments => Settled::RefusedValues,
        _ => Settled::Refused(code, argument, Texts::new(alloc)),
    }
}

/// The answer of a plain call that another crate answers.
pub(crate) fn answered(alloc: Global, done: Result<Value, CallError>) -> Result<Settled, AllocError>
    ensures { (answer : Answered) → Settles val_of done answer → IfOk result (λ s. settled_view s ≡ settled_of answer) }
{
    match done {
        Ok(value) => Ok(Settled::Value(value)),
        Err(CallError::Refused { code, argument }) => Ok(refusal(alloc, code, argument)),
        Err(CallError::Memory) => Err(AllocError),
    }
}

// What a call on texts and lists answers to these values.
fn answer_text(alloc: Global, call: TextCall, values: &[Value]) -> Result<Settled, AllocError>
    ensures { IfOk result (λ s. settled_view s ≡ settled_of (text_call call (map val_of values.now))) }
{
    answered(alloc, call_text(alloc, call, values))
}

// What a call on paths and labels answers to these values where it stands.
fn answer_path(
    alloc: Global,
    call: PathCall,
    values: &[Value],
    env: &Env,
) -> Result<Settled, AllocError>
    ensures { IfOk result (λ s. settled_view s ≡ settled_of (path_call call (where_here env.now.setting) (map val_of values.now))) }
{
    let at = where_here(alloc, env)?;
    answered(alloc, call_path(alloc, call, values, &at))
}

// What `get_target_outputs` answers to these values, where the outcome's items have been defined.
fn answer_outputs(
    alloc: Global,
    values: &[Value],
    env: &Env,
    out: &Outcome,
) -> Result<Settled, AllocError>
    ensures { IfOk result (λ s. settled_view s ≡ settled_of (target_outputs env.now.setting out.now.items (map val_of values.now))) }
{
    answered(alloc, get_target_outputs(alloc, values, env, out))
}

// What the call answers to these values where it stands, and where the outcome's items have been defined.
#[tactic(auto, unfolding(gn_meaning::specs::PlainCalls::answer))]
fn answer_plain(
    alloc: Global,
    plain: Plain,
    values: &[Value],
    env: &Env,
    out: &Outcome,
) -> Result<Settled, AllocError>
    ensures { IfOk result (λ s. settled_view s ≡ answer plain env.now.setting out.now.items (map val_of values.now)) }
{
    match plain {
        Plain::Assert => answer_assert(alloc, values),
        Plain::Print => Ok(Settled::Line(print_line(alloc, values)?)),
        Plain::WriteFile => answer_write(alloc, values, env),
        Plain::Text(call) => answer_text(alloc, call, values),
        Plain::Path(call) => answer_path(alloc, call, values, env),
        Plain::TargetOutputs => answer_outputs(alloc, values, env, out),
    }
}

// Where a refusal stands.
fn refused_position(argument: Option<u32>, call: &Call) -> Position
    ensures { result ≡ refused_position argument call.now }
{
    match argument {
        Some(number) => argument_position(call, number as usize),
        None => call.position,
    }
}

// The end of an evaluation with a refusal.
fn refused(
    alloc: Global,
    code: Code,
    argument: Option<u32>,
    details: Texts,
    call: &Call,
    env: &Env,
) -> StepEnd
    ensures { IsFault result (fault_in env.now.setting (refused_position argument call.now) code details) }
{
    match env.fault(alloc, code, refused_position(argument, call), details) {
        Ok(fault) => StepEnd::Wrong(fault),
        Err(_) => StepEnd::Memory,
    }
}

// The file that a call writes, noted with the place of the call.
fn write(
    alloc: Global,
    path: Path,
    bytes: Text,
    call: &Call,
    env: &Env,
    out: &mut Outcome,
) -> Result<(), AllocError>
    ensures { OnOk result (out.new ≡ with_written (record { path = path; bytes = bytes; place = place_here call.now.position env.now }) out.old) }
{
    let place = place_here(alloc, call.position, env)?;
    out.write(Written { path, bytes, place })
}

/// What an answer does.
#[tactic(auto, unfolding(gn_meaning::specs::PlainCalls::settled_runs))]
pub fn settle(
    alloc: Global,
    settled: Settled,
    call: &Call,
    env: &Env,
    out: &mut Outcome,
) -> Result<Option<Value>, StepEnd>
    ensures { IsStep (option_map val_of) result env.now out.new (settled_runs (settled_view settled) call.now env.now out.old) }
{
    match settled {
        Settled::Value(value) => Ok(Some(value)),
        Settled::Nothing => Ok(None),
        Settled::Line(line) => {
            out.print(line)?;
            Ok(None)
        }
        Settled::File(path, bytes) => {
            write(alloc, path, bytes, call, env, out)?;
            Ok(None)
        }
        Settled::Refused(code, argument, details) => {
            Err(refused(alloc, code, argument, details, call, env))
        }
        Settled::RefusedValues => Err(refuse(alloc, call, env)),
    }
}

/// What a plain call does with the values of its arguments: it answers a value or none, or prints a line or writes a file, which
/// `out` has then. `Wrong` has what the call refuses, at the argument concerned or at its name. Nothing else changes.
pub fn apply_plain(
    alloc: Global,
    plain: Plain,
    values: &[Value],
    call: &Call,
    env: &Env,
    out: &mut Outcome,
) -> Result<Option<Value>, StepEnd>
    ensures { IsStep (option_map val_of) result env.now out.new (plain_runs plain (map val_of values.now) call.now env.now out.old) }
{
    let settled = answer_plain(alloc, plain, values, env, out)?;
    settle(alloc, settled, call, env, out)
}
