// The faults of a file that are found before it runs.

ghost use Rattle.std.specs.Prelude.{◌≡◌, ◌≤◌, length, IfOk, MatchOption};
ghost use Rattle.gn_value_model.specs.Limits.{max_bytes};
ghost use Rattle.gn_grammar.specs.Position.{position_of};
ghost use Rattle.gn_syntax.specs.Reading.{fault_of};
ghost use Rattle.gn_executions.specs.Faults.{whole_file_fault, syntax_code, syntax_offset, syntax_fault};

use gn_env::Env;
use gn_faults::{Code, Fault};
use gn_paths::Texts;
use gn_syntax::{SyntaxError, place_of};
use gn_tokens::TokenError;
use gn_tree::Position;
use std::alloc::{AllocError, Global};

/// A fault of the whole file that is evaluated in an environment, which stands at its beginning and shows its path.
pub fn whole_file_fault_in(alloc: Global, env: &Env, code: Code) -> Result<Fault, AllocError>
    ensures { IfOk result (λ f. f ≡ whole_file_fault env.now.setting code) }
{
    let mut detail = Texts::new(alloc);
    detail.push(env.file().copy(alloc)?)?;
    let beginning = Position { line: 1, column: 1 };
    env.fault(alloc, code, beginning, detail)
}

/// The fault of a syntax error of the bytes of the file that is evaluated in an environment, or want of memory.
pub fn syntax_fault_in(
    alloc: Global,
    env: &Env,
    bytes: &[u8],
    error: SyntaxError,
) -> Result<Fault, AllocError>
    requires { length bytes.now ≤ max_bytes }
    ensures { IfOk result (λ f. MatchOption (fault_of error) ⊥ (λ found. f ≡ syntax_fault env.now.setting bytes.now found)) }
{
    let (code, offset) = code_and_offset(error)?;
    env.fault(alloc, code, position_of(bytes, offset), Texts::new(alloc))
}

// The code of a syntax error, and the offset at which it stands; want of memory is none.
fn code_and_offset(error: SyntaxError) -> Result<(Code, usize), AllocError>
    ensures { IfOk result (λ r. MatchOption (fault_of error) ⊥ (λ found. (r.0 ≡ syntax_code found) × (r.1 ≡ syntax_offset found))) }
{
    match error {
        SyntaxError::Token(TokenError::BadByte(offset)) => Ok((Code::BadByte, offset)),
        SyntaxError::Token(TokenError::BadNumber(offset)) => Ok((Code::BadNumber, offset)),
        SyntaxError::Token(TokenError::OpenString(offset)) => Ok((Code::OpenString, offset)),
        SyntaxError::Token(TokenError::BadDollar(offset)) => Ok((Code::BadDollar, offset)),
        SyntaxError::Unexpected(offset) => Ok((Code::Unexpected, offset)),
        SyntaxError::TooDeep(offset) => Ok((Code::TooDeep, offset)),
        SyntaxError::Memory => Err(AllocError),
    }
}

// The line and column of an offset. One behind the end of the file counts as the end.
fn position_of(bytes: &[u8], offset: usize) -> Position
    requires { length bytes.now ≤ max_bytes }
    ensures { result ≡ position_of bytes.now offset }
{
    let (line, column) = place_of(bytes, offset.min(bytes.len()));
    Position { line, column }
}
