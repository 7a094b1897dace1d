// `read_file`: what it asks for, and what is made of the content of the file.

ghost use Rattle.std.specs.Prelude.{◌≡◌, ◌≤◌, [], ◌∷◌, Some, length, IfOk, map, option_copied};
ghost use Rattle.gn_value_model.specs.Limits.{max_bytes};
ghost use Rattle.gn_paths.specs.Resolve.{path_meant};
ghost use Rattle.gn_syntax.specs.Reading.{expr_reading};
ghost use Rattle.gn_values.specs.View.{val_of};
ghost use Rattle.gn_calls_text.specs.Conversions.{conversion_of, converted};
ghost use Rattle.gn_items.specs.Effects.{Effects};
ghost use Rattle.gn_runs.specs.Runs.{Answers};
ghost use Rattle.gn_meaning.specs.Contents.{comes_to, expression_in, bytes_read, read_depth, is_too_deep, path_read, conversion_read, text_at, texts_read, reading_runs, reading_begins};
ghost use Rattle.gn_meaning.specs.PlainCalls.{refuses, settled_of};
ghost use Rattle.gn_calls_plain.specs.Answers.{settled_view};
ghost use Rattle.gn_calls_plain.specs.Contents.{IsReading, read_view, IsShallowRead};

use crate::plain::{Settled, answered};
use gn_calls_text::{Conversion, Form, convert};
use gn_env::Env;
use gn_faults::Code;
use gn_paths::{Path, Text, Texts, path_meant};
use gn_steps::{StepEnd, argument_position, path_code, refuse, wrong, wrong_with};
use gn_syntax::{SyntaxError, parse_expr};
use gn_tree::{Call, SubExpr};
use gn_values::Value;
use std::alloc::{AllocError, Global};

/// What a call of `read_file` asks for.
#[derive(Drop)]
pub struct Reading {
    /// The path of the file.
    pub path: Path,
    /// What is made of its content.
    pub conversion: Conversion,
}

/// What the content of a file comes to.
#[derive(Drop)]
pub enum Read {
    /// An answer.
    Answer(Settled),
    /// The expression that the file at this path is.
    Expression(Path, SubExpr),
}

// The greatest depth of an evaluation, and one more.
const TOO_DEEP: usize = 401;

// The depth of the evaluation while one more call is open, whose name nests so deep; above the greatest depth nothing is told
// apart.
fn read_depth(nesting: u32, env: &Env) -> usize
    ensures { result ≡ read_depth nesting env.now }
{
    env.depth()
        .saturating_add(nesting as usize)
        .saturating_add(1)
        .min(TOO_DEEP)
}

// Whether the evaluation of what is read would be too deep.
fn is_too_deep(conversion: Conversion, nesting: u32, env: &Env) -> bool
    ensures { result ≡ is_too_deep conversion nesting env.now }
{
    conversion.is_evaluated() && read_depth(nesting, env) >= TOO_DEEP
}

// The file at the path that a text means.
fn read_path(
    alloc: Global,
    conversion: Conversion,
    text: &Text,
    call: &Call,
    env: &Env,
) -> Result<Reading, StepEnd>
    ensures { (a : Answers) (out : Effects) → IsReading result a call.now env.now out (path_read conversion
        (path_meant env.now.setting.directory text.now) a call.now env.now out) }
{
    let at = argument_position(call, 0);
    match path_meant(alloc, env.directory(), text.as_bytes())? {
        Ok(path) if path.is_system() => Err(wrong(alloc, env, Code::BadPath, at)),
        Ok(path) => Ok(Reading { path, conversion }),
        Err(fault) => Err(wrong(alloc, env, path_code(fault), at)),
    }
}

// The same, where the conversion is judged before the path.
fn read_named(
    alloc: Global,
    name: &Text,
    text: &Text,
    nesting: u32,
    call: &Call,
    env: &Env,
) -> Result<Reading, StepEnd>
    ensures { (a : Answers) (out : Effects) → IsReading result a call.now env.now out (conversion_read (conversion_of name.now) name.now text.now a nesting call.now env.now out) }
{
    match Conversion::named(name.as_bytes()) {
        Some(conversion) if is_too_deep(conversion, nesting, env) => {
            Err(wrong(alloc, env, Code::Nesting, call.position))
        }
        Some(conversion) => read_path(alloc, conversion, text, call, env),
        None => Err(wrong_with(alloc, env, Code::Excluded, call.position, name)),
    }
}

// The string that a value is, if it is one.
fn text_at(value: &Value) -> Option<&Text>
    ensures { option_copied result ≡ text_at (val_of value.now) }
{
    match value {
        Value::Str(text) => Some(text),
        _ => None,
    }
}

// The same, where both arguments are judged to be strings before.
fn read_texts(
    alloc: Global,
    text: Option<&Text>,
    name: Option<&Text>,
    nesting: u32,
    call: &Call,
    env: &Env,
) -> Result<Reading, StepEnd>
    ensures { (a : Answers) (out : Effects) → IsReading result a call.now env.now out (texts_read (option_copied text.entry)
        (option_copied name.entry) a nesting call.now env.now out) }
{
    match (text, name) {
        (Some(text), Some(name)) => read_named(alloc, name, text, nesting, call, env),
        (Some(_), None) => Err(wrong(alloc, env, Code::BadTypes, argument_position(call, 1))),
        (None, _) => Err(wrong(alloc, env, Code::BadTypes, argument_position(call, 0))),
    }
}

/// What `read_file` asks for, by the values of its arguments; its name nests so deep in its file. `Wrong` has the first of its
/// faults: `BadTypes` at an argument that is no string, at the name of the call `Excluded` with a text that names no conversion and
/// `Nesting` where an evaluation would be too deep, `AboveRoot` or `BadPath` at the path where it leads out of the source tree, or is
/// no path or one of the system.
#[tactic(auto, unfolding(gn_meaning::specs::Contents::reading_runs))]
pub fn begin_reading(
    alloc: Global,
    values: &[Value],
    nesting: u32,
    call: &Call,
    env: &Env,
) -> Result<Reading, StepEnd>
    ensures { (a : Answers) (out : Effects) → IsReading result a call.now env.now out (reading_runs a (map val_of values.now) nesting call.now env.now out) }
{
    match values {
        [text, name] => read_texts(alloc, text_at(text), text_at(name), nesting, call, env),
        _ => Err(refuse(alloc, call, env)),
    }
}

// What a form makes of the bytes of a file.
fn answer_form(alloc: Global, form: Form, bytes: &[u8]) -> Result<Settled, AllocError>
    ensures { IfOk result (λ s. settled_view s ≡ settled_of (converted form bytes.now)) }
{
    answered(alloc, convert(alloc, form, bytes))
}

// The expression that the bytes are, if they are one.
fn read_expression(alloc: Global, path: &Path, bytes: &[u8]) -> Result<Read, AllocError>
    requires short { length bytes.now ≤ max_bytes }
    ensures read { IfOk result (λ r. read_view r ≡ expression_in path.now (expr_reading bytes.now)) }
    ensures shallow { IfOk result IsShallowRead }
{
    match parse_expr(alloc, bytes) {
        Ok(expression) => Ok(Read::Expression(path.copy(alloc)?, expression)),
        Err(SyntaxError::Memory) => Err(AllocError),
        Err(_) => Ok(Read::Answer(Settled::RefusedValues)),
    }
}

/// What the bytes of a file come to, which are no more than a file may have.
pub fn read_bytes(alloc: Global, reading: &Reading, bytes: &[u8]) -> Result<Read, AllocError>
    requires short { length bytes.now ≤ max_bytes }
    ensures read { IfOk result (λ r. read_view r ≡ bytes_read reading.now.conversion reading.now.path bytes.now) }
    ensures shallow { IfOk result IsShallowRead }
{
    match reading.conversion {
        Conversion::Nothing => Ok(Read::Answer(Settled::Nothing)),
        Conversion::Of(form) => Ok(Read::Answer(answer_form(alloc, form, bytes)?)),
        Conversion::Evaluated => read_expression(alloc, &reading.path, bytes),
    }
}

/// What a file comes to whose content can't be had: the fault with this code stands at the path.
pub fn missing(alloc: Global, code: Code, path: &Path) -> Result<Read, AllocError>
    ensures read { IfOk result (λ r. read_view r ≡ comes_to (refuses code (Some 0) (path.now ∷ []))) }
    ensures shallow { IfOk result IsShallowRead }
{
    let mut details = Texts::new(alloc);
    details.push(path.as_text().copy(alloc)?)?;
    Ok(Read::Answer(Settled::Refused(code, Some(0), details)))
}

/// Where the expression begins that the file at a path is: in an empty scope with nothing around it, in the directory and the
/// block of the call, whose name nests so deep in its file.
pub fn begin_expression(
    alloc: Global,
    path: &Path,
    nesting: u32,
    env: &Env,
) -> Result<Env, AllocError>
    ensures { IfOk result (λ e. e ≡ reading_begins path.now nesting env.now) }
{
    let mut inner = env.apart(alloc, path.as_text())?;
    inner.set_depth(read_depth(nesting, env));
    Ok(inner)
}
