//! The bytes of a string: where it ends, and which of its `$` are right.

ghost use Rattle.std.specs.Prelude.{◌≡◌, ◌+◌, ◌<◌, ◌≤◌, length, drop, false, not, ◌==◌, ◌&&◌, IfSome};
ghost use Rattle.gn_tokens.specs.Bytes.{is_escapable};
ghost use Rattle.gn_tokens.specs.Text.{is_hex, is_field, index_len, closes, is_braced_end, is_braced, expands, is_stop, text_len, first_bad};

use crate::number::integer_at_front;
use crate::word::{after_word, is_name_next, is_next, is_word_next, word_len};

fn after_one(bytes: &[u8]) -> &[u8]
    ensures { result.now ≡ drop 1 bytes.now }
{
    match bytes {
        [_, rest @ ..] => rest,
        [] => bytes,
    }
}

// The bytes from this place on.
fn from(bytes: &[u8], at: usize) -> &[u8]
    requires { at ≤ length bytes.now }
    ensures { result.now ≡ drop at bytes.now }
{
    &bytes[at..]
}

fn is_hex_next(bytes: &[u8]) -> bool
    ensures { result ≡ is_hex bytes.now }
{
    match bytes {
        [b'0', b'x', high, low, ..] => high.is_ascii_hexdigit() && low.is_ascii_hexdigit(),
        _ => false,
    }
}

// Whether a name and the bracket that closes an expansion are next.
fn is_field_next(bytes: &[u8]) -> bool
    ensures { result ≡ is_field bytes.now }
{
    is_name_next(bytes) && is_next(b'}', after_word(bytes))
}

fn index_at_front(bytes: &[u8]) -> Option<usize>
    ensures value { result ≡ index_len bytes.now }
    ensures within { IfSome result (λ n. n ≤ length bytes.now) }
{
    if !is_word_next(bytes) {
        return integer_at_front(bytes);
    }
    if !is_name_next(bytes) {
        return None;
    }
    Some(word_len(bytes))
}

fn is_closed(bytes: &[u8]) -> bool
    ensures { result ≡ closes bytes.now }
{
    is_next(b']', bytes) && is_next(b'}', after_one(bytes))
}

// Whether what may stand behind the name in `${name` is next.
fn is_behind_name(bytes: &[u8]) -> bool
    ensures { result ≡ is_braced_end bytes.now }
{
    if is_next(b'}', bytes) {
        return true;
    }
    let rest = after_one(bytes);
    if is_next(b'.', bytes) {
        return is_field_next(rest);
    }
    if !is_next(b'[', bytes) {
        return false;
    }
    match index_at_front(rest) {
        Some(n) => is_closed(&rest[n..]),
        None => false,
    }
}

fn is_braced_next(bytes: &[u8]) -> bool
    ensures { result ≡ is_braced bytes.now }
{
    is_name_next(bytes) && is_behind_name(after_word(bytes))
}

// Whether an expansion stands behind a `$`.
fn is_expansion(bytes: &[u8]) -> bool
    ensures { result ≡ expands bytes.now }
{
    if is_next(b'{', bytes) {
        return is_braced_next(after_one(bytes));
    }
    is_name_next(bytes) || is_hex_next(bytes)
}

fn is_escaped(is_escape: bool, b: u8) -> bool
    ensures { result ≡ (is_escape && is_escapable b) }
{
    is_escape && matches!(b, b'"' | b'$' | b'\\')
}

fn is_bad(b: u8, rest: &[u8]) -> bool
    ensures { result ≡ (b == 36 && not (expands rest.now)) }
{
    b == b'$' && !is_expansion(rest)
}

// The quote that closes a string, or a newline.
fn ends_text(b: u8) -> bool
    ensures { result ≡ is_stop b }
{
    b == b'"' || b == b'\n'
}

// How many bytes stand in front of the quote that closes a string, of the first newline or of the end, in the bytes behind the opening quote.
pub(crate) fn text_length(bytes: &[u8]) -> usize
    ensures value { result ≡ text_len false bytes.now }
    ensures within { result ≤ length bytes.now }
{
    let mut is_escape = false;
    for (i, b) in bytes.iter().enumerate() {
        if is_escaped(is_escape, *b) {
            is_escape = false;
        } else if ends_text(*b) {
            return i;
        } else {
            is_escape = *b == b'\\';
        }
    }
    bytes.len()
}

// Where the first `$` stands in a string that is neither escaped nor of an expansion, in the bytes behind the opening quote.
pub(crate) fn bad_dollar_in(bytes: &[u8]) -> Option<usize>
    ensures value { result ≡ first_bad false bytes.now }
    ensures within { IfSome result (λ n. n < length bytes.now) }
{
    let mut is_escape = false;
    for (i, b) in bytes.iter().enumerate() {
        if is_escaped(is_escape, *b) {
            is_escape = false;
        } else if ends_text(*b) {
            return None;
        } else if is_bad(*b, from(bytes, i + 1)) {
            return Some(i);
        } else {
            is_escape = *b == b'\\';
        }
    }
    None
}
