//! The token at the front of bytes.

ghost use Rattle.std.specs.Prelude.{◌≡◌, ◌+◌, ◌<◌, ◌≤◌, ◌^◌, ℕ, List, ◌∷◌, length, false, IfOk, IfSome};
ghost use Rattle.gn_tokens.specs.Front.{front_number, front_string, front_mark};
ghost use Rattle.gn_tokens.specs.Text.{text_len};
ghost use Rattle.gn_tokens.specs.Number.{integer_len};
ghost use Rattle.gn_tokens.specs.Next.{front_answer, answer, next_token};

use crate::gap::white_len;
use crate::mark::mark_at_front;
use crate::number::{integer_at_front, is_run_next};
use crate::text::{bad_dollar_in, text_length};
use crate::token::{Token, TokenError, TokenKind};
use crate::word::{is_word_start, kind_of_word, word_len};

// The token that stands first from this place on.
pub(crate) fn token_from(bytes: &[u8], at: usize) -> Result<Option<Token>, TokenError>
    requires { at ≤ length bytes.now }
    ensures value { result ≡ next_token bytes.now at }
    ensures within { IfOk result (λ o. IfSome o (λ t. t.end ≤ length bytes.now)) }
{
    let start = at + white_len(&bytes[at..]);
    token_at_front(&bytes[start..], start)
}

// The token at the front of the bytes, which stand at this offset.
fn token_at_front(bytes: &[u8], start: usize) -> Result<Option<Token>, TokenError>
    requires { start + length bytes.now < 2 ^ 64 }
    ensures value { result ≡ answer start bytes.now }
    ensures within { IfOk result (λ o. IfSome o (λ t. t.end ≤ start + length bytes.now)) }
{
    let [first, rest @ ..] = bytes else {
        return Ok(None);
    };
    if is_word_start(*first) {
        let len = word_len(bytes);
        return Ok(Some(Token {
            kind: kind_of_word(&bytes[..len]),
            start,
            end: start + len,
        }));
    }
    if is_run_next(bytes) {
        return number_token(bytes, start);
    }
    if *first == b'"' {
        return string_token(rest, start);
    }
    mark_token(bytes, start)
}

// The run of digits at the front, as a token.
fn number_token(bytes: &[u8], start: usize) -> Result<Option<Token>, TokenError>
    requires { start + length bytes.now < 2 ^ 64 }
    ensures value { result ≡ front_answer start (front_number (integer_len bytes.now)) }
    ensures within { IfOk result (λ o. IfSome o (λ t. t.end ≤ start + length bytes.now)) }
{
    match integer_at_front(bytes) {
        Some(len) => Ok(Some(Token {
            kind: TokenKind::Integer,
            start,
            end: start + len,
        })),
        None => Err(TokenError::BadNumber(start)),
    }
}

// The string whose opening quote stands at this offset before the bytes.
fn string_token(bytes: &[u8], start: usize) -> Result<Option<Token>, TokenError>
    requires { start + 1 + length bytes.now < 2 ^ 64 }
    ensures value { result ≡ front_answer start (front_string (text_len false bytes.now) bytes.now) }
    ensures within { IfOk result (λ o. IfSome o (λ t. t.end ≤ start + 1 + length bytes.now)) }
{
    let len = text_length(bytes);
    let [b'"', ..] = &bytes[len..] else {
        return Err(TokenError::OpenString(start));
    };
    match bad_dollar_in(bytes) {
        Some(at) => Err(TokenError::BadDollar(start + 1 + at)),
        None => Ok(Some(Token {
            kind: TokenKind::Str,
            start,
            end: start + len + 2,
        })),
    }
}

// The mark at the front, as a token.
#[tactic(auto, using(crate::proofs::Marks::mark_found, crate::proofs::Marks::mark_wrong))]
fn mark_token(bytes: &[u8], start: usize) -> Result<Option<Token>, TokenError>
    requires { start + length bytes.now < 2 ^ 64 }
    ensures value { (b : ℕ) (bs : List ℕ) → bytes.now ≡ b ∷ bs → result ≡ front_answer start (front_mark b bs) }
    ensures within { IfOk result (λ o. IfSome o (λ t. t.end ≤ start + length bytes.now)) }
{
    match mark_at_front(bytes) {
        Some((kind, len)) => Ok(Some(Token {
            kind,
            start,
            end: start + len,
        })),
        None => Err(TokenError::BadByte(start)),
    }
}
