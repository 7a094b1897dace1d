// String literals: their pieces are expanded into one text.

ghost use Rattle.std.specs.Prelude.{◌≡◌, [], OnOk, IfErr, Some, false};
ghost use Rattle.gn_items.specs.Effects.{Effects};
ghost use Rattle.gn_values.specs.View.{val_of};
ghost use Rattle.gn_values.specs.Text.{text_of};
ghost use Rattle.gn_meaning.specs.Steps.{then_do, ends};
ghost use Rattle.gn_environment.specs.Environment.{value_of};
ghost use Rattle.gn_meaning.specs.Words.{value_or_undefined, name_runs, element_of_base, element_runs, string_runs};
ghost use Rattle.gn_meaning.specs.Pieces.{subscript_runs, text_runs, piece_runs, pieces_run};
ghost use Rattle.gn_steps.specs.Ends.{IsStep};
ghost use Rattle.gn_expressions.specs.Texts.{lengthened, pieces_added};

use crate::names::{read_base, read_invoker, read_invoker_element, read_name};
use gn_env::Env;
use gn_faults::Code;
use gn_paths::Text;
use gn_steps::{StepEnd, refused_element, wrong, wrong_with};
use gn_tree::{Piece, Position, Subscript};
use gn_values::{Value, ValueError, append_text, index, print_text};
use std::alloc::Global;

// More bytes behind a text, which is forgotten where it gets longer than a string may be.
fn add_bytes(bytes: &[u8], text: &mut Option<Text>) -> Result<(), StepEnd>
    ensures ok { OnOk result (text.new ≡ lengthened text.old bytes.now) }
    ensures only { IfErr result (λ e. e ≡ StepEnd.Memory) }
{
    let Some(whole) = text else {
        return Ok(());
    };
    match append_text(whole, bytes) {
        Ok(()) => Ok(()),
        Err(ValueError::Memory) => Err(StepEnd::Memory),
        Err(_) => {
            *text = None;
            Ok(())
        }
    }
}

// The text of a value behind a text. One that was forgotten has none made for it.
#[tactic(auto, unfolding(gn_values::specs::Text::text_of))]
fn add_value(alloc: Global, value: &Value, text: &mut Option<Text>) -> Result<(), StepEnd>
    ensures ok { OnOk result (text.new ≡ lengthened text.old (text_of false (val_of value.now))) }
    ensures only { IfErr result (λ e. e ≡ StepEnd.Memory) }
{
    if text.is_none() {
        return Ok(());
    }
    match value {
        Value::Str(string) => add_bytes(string.as_bytes(), text),
        _ => {
            let printed = print_text(alloc, value, false)?;
            add_bytes(printed.as_bytes(), text)
        }
    }
}

// The text of a variable's value.
#[tactic(auto, unfolding(gn_environment::specs::Environment::after_read))]
fn add_variable(
    alloc: Global,
    name: &Text,
    position: Position,
    env: &mut Env,
    text: &mut Option<Text>,
) -> Result<(), StepEnd>
    ensures runs { (out : Effects) → IsStep (λ _. text.new) result env.new out (then_do (text_runs (value_or_undefined (value_of name.now env.old) name.now position env.old out))
        (λ more env1 out1. ends (lengthened text.old more) env1 out1)) }
{
    match env.look(name) {
        Some(value) => add_value(alloc, value, text),
        None => Err(wrong_with(alloc, env, Code::Undefined, position, name)),
    }
}

// The text of a name's value.
#[tactic(auto, unfolding(gn_meaning::specs::Words::name_runs))]
fn add_name(
    alloc: Global,
    name: &Text,
    position: Position,
    env: &mut Env,
    text: &mut Option<Text>,
) -> Result<(), StepEnd>
    ensures runs { (out : Effects) → IsStep (λ _. text.new) result env.new out (then_do (text_runs (name_runs name.now position env.old out))
        (λ more env1 out1. ends (lengthened text.old more) env1 out1)) }
{
    if env.is_invoker(name) {
        let value = read_invoker(alloc, position, env)?;
        add_value(alloc, &value, text)
    } else {
        add_variable(alloc, name, position, env, text)
    }
}

// The text of an element of a variable's value, whose faults stand at one position.
#[tactic(auto, unfolding(gn_environment::specs::Environment::after_read))]
fn add_variable_element(
    alloc: Global,
    base: &Text,
    at: &Value,
    position: Position,
    env: &mut Env,
    text: &mut Option<Text>,
) -> Result<(), StepEnd>
    ensures runs { (out : Effects) → IsStep (λ _. text.new) result env.new out (then_do
        (text_runs (element_of_base (value_of base.now env.old) base.now position (val_of at.now) position env.old out)) (λ more env1 out1. ends (lengthened text.old more) env1 out1)) }
{
    match env.look(base) {
        Some(value) => match index(value, at) {
            Ok(element) => add_value(alloc, element, text),
            Err(error) => Err(refused_element(alloc, env, error, at, position)),
        },
        None => Err(wrong_with(alloc, env, Code::Undefined, position, base)),
    }
}

// The text of an element, whose faults stand at one position.
#[tactic(auto, unfolding(gn_meaning::specs::Words::element_runs))]
fn add_element(
    alloc: Global,
    base: &Text,
    at: &Value,
    position: Position,
    env: &mut Env,
    text: &mut Option<Text>,
) -> Result<(), StepEnd>
    ensures runs { (out : Effects) → IsStep (λ _. text.new) result env.new out (then_do (text_runs (element_runs base.now position (val_of at.now) position env.old out))
        (λ more env1 out1. ends (lengthened text.old more) env1 out1)) }
{
    if env.is_invoker(base) {
        let value = read_invoker_element(alloc, at, position, env)?;
        add_value(alloc, &value, text)
    } else {
        add_variable_element(alloc, base, at, position, env, text)
    }
}

// The value of what stands between the square brackets of an expansion.
fn read_subscript(
    alloc: Global,
    subscript: &Subscript,
    position: Position,
    env: &mut Env,
) -> Result<Value, StepEnd>
    ensures runs { (out : Effects) → IsStep val_of result env.new out (subscript_runs subscript.now position env.old out) }
{
    match subscript {
        Subscript::Name(name) => read_name(alloc, name, position, env),
        Subscript::Integer(number) => Ok(Value::Int(*number)),
    }
}

// The text of one more piece of a string.
#[tactic(auto, unfolding(gn_meaning::specs::Pieces::piece_runs))]
fn add_piece(
    alloc: Global,
    piece: &Piece,
    env: &mut Env,
    text: &mut Option<Text>,
) -> Result<(), StepEnd>
    ensures runs { (out : Effects) → IsStep (λ _. text.new) result env.new out (then_do (piece_runs piece.now env.old out)
        (λ more env1 out1. ends (lengthened text.old more) env1 out1)) }
{
    match piece {
        Piece::Bytes(bytes) => add_bytes(bytes.as_bytes(), text),
        Piece::Name { position, name } => add_name(alloc, name, *position, env, text),
        Piece::Item {
            position,
            base,
            subscript,
        } => {
            read_base(alloc, base, *position, env)?;
            let at = read_subscript(alloc, subscript, *position, env)?;
            add_element(alloc, base, &at, *position, env, text)
        }
        Piece::Entry {
            position,
            base,
            entry,
        } => {
            let at = Value::Str(entry.copy(alloc)?);
            add_element(alloc, base, &at, *position, env, text)
        }
    }
}

// The texts of pieces in their order, behind one another in one buffer, or nothing where they are longer than a string
// may be. Then too all pieces are evaluated.
fn add_pieces(alloc: Global, pieces: &[Piece], env: &mut Env) -> Result<Option<Text>, StepEnd>
    ensures runs { (out : Effects) → IsStep (λ t. t) result env.new out (pieces_added pieces.now (Some []) env.old out) }
{
    let mut text = Some(Text::new(alloc));
    for piece in pieces {
        add_piece(alloc, piece, env, &mut text)?;
    }
    Ok(text)
}

/// The value of a string literal whose quote stands at the position: the texts of its pieces in their order, and all
/// that they name counts as read. `Wrong` has the first fault of a piece, at the piece; and where no piece has one,
/// `TooLong` at the quote if the whole text is longer than that of a string may be.
pub fn expand(
    alloc: Global,
    pieces: &[Piece],
    quote: Position,
    env: &mut Env,
) -> Result<Value, StepEnd>
    ensures runs { (out : Effects) → IsStep val_of result env.new out
        (then_do (pieces_run pieces.now [] env.old out) (λ text env1 out1. string_runs text quote env1 out1)) }
{
    match add_pieces(alloc, pieces, env)? {
        Some(text) => Ok(Value::Str(text)),
        None => Err(wrong(alloc, env, Code::TooLong, quote)),
    }
}
