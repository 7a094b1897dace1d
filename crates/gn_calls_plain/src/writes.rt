// `write_file`.

ghost use Rattle.std.specs.Prelude.{◌≡◌, IfOk, map, option_map};
ghost use Rattle.gn_paths.specs.Resolve.{path_meant};
ghost use Rattle.gn_values.specs.View.{val_of};
ghost use Rattle.gn_calls_text.specs.Answers.{texts_in};
ghost use Rattle.gn_calls_text.specs.Views.{bytes_in};
ghost use Rattle.gn_meaning.specs.PlainCalls.{with_newlines, bytes_written, written_at, write_settled, write_answer};
ghost use Rattle.gn_calls_plain.specs.Answers.{settled_view};

use crate::plain::{Settled, refused_at, wrong_type};
use gn_calls_text::{bytes_of, texts_of};
use gn_env::Env;
use gn_faults::Code;
use gn_paths::{Text, path_meant};
use gn_steps::path_code;
use gn_values::Value;
use std::alloc::{AllocError, Global};

// Each string and a newline.
fn with_newlines(alloc: Global, texts: &[Value]) -> Result<Text, AllocError>
    ensures { IfOk result (λ t. t ≡ with_newlines (map bytes_in texts.now)) }
{
    let mut written = Text::new(alloc);
    for text in texts {
        written.append(bytes_of(text))?;
        written.push(b'\n')?;
    }
    Ok(written)
}

// The same of the strings of a list; another list has none.
fn lines_written(alloc: Global, list: &Value) -> Result<Option<Text>, AllocError>
    ensures { IfOk result (λ t. t ≡ option_map with_newlines (texts_in (val_of list.now))) }
{
    match texts_of(list, 1) {
        Ok(texts) => Ok(Some(with_newlines(alloc, texts)?)),
        Err(_) => Ok(None),
    }
}

// What is written of a value, if it can be written.
fn bytes_written(alloc: Global, value: &Value) -> Result<Option<Text>, AllocError>
    ensures { IfOk result (λ t. t ≡ bytes_written (val_of value.now)) }
{
    match value {
        Value::Str(text) => Ok(Some(text.copy(alloc)?)),
        Value::List(_) => lines_written(alloc, value),
        _ => Ok(None),
    }
}

// These bytes, written at the path that a text means.
fn write_at(alloc: Global, text: &Text, bytes: Text, env: &Env) -> Result<Settled, AllocError>
    ensures { IfOk result (λ s. settled_view s ≡ written_at env.now.setting.context.build_directory (path_meant env.now.setting.directory text.now) bytes) }
{
    match path_meant(alloc, env.directory(), text.as_bytes())? {
        Ok(path) if path.is_below(&env.context().build_directory) => Ok(Settled::File(path, bytes)),
        Ok(_) => Ok(refused_at(alloc, Code::BadPath, 0)),
        Err(fault) => Ok(refused_at(alloc, path_code(fault), 0)),
    }
}

// The same where there is something to write.
fn write_value(alloc: Global, text: &Text, value: &Value, env: &Env) -> Result<Settled, AllocError>
    ensures { IfOk result (λ s. settled_view s ≡ write_settled env.now.setting text.now (bytes_written (val_of value.now))) }
{
    match bytes_written(alloc, value)? {
        Some(bytes) => write_at(alloc, text, bytes, env),
        None => Ok(wrong_type(alloc, 1)),
    }
}

/// What `write_file` answers to its values.
#[tactic(auto, unfolding(gn_meaning::specs::PlainCalls::write_answer))]
pub(crate) fn answer_write(
    alloc: Global,
    values: &[Value],
    env: &Env,
) -> Result<Settled, AllocError>
    ensures { IfOk result (λ s. settled_view s ≡ write_answer env.now.setting (map val_of values.now)) }
{
    match values {
        [Value::Str(text), value] => write_value(alloc, text, value, env),
        _ => Ok(wrong_type(alloc, 0)),
    }
}
