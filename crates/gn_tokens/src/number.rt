//! Integers.

ghost use Rattle.std.specs.Prelude.{◌≡◌, ◌<◌, ◌≤◌, ◌^◌, length, pos, neg_ℤ, IfSome, MatchOption};
ghost use Rattle.std.specs.List.{prefix_len};
ghost use Rattle.gn_tokens.specs.Bytes.{is_digit, begins};
ghost use Rattle.gn_tokens.specs.Number.{decimal, integer_value, begins_run, run_len, is_magnitude, is_integer, integer_len};
ghost use Rattle.gn_tokens.specs.Token.{IsToken};

use crate::token::TokenKind;
use crate::word::is_word_next;

// How many digits stand at the front.
fn digits_len(bytes: &[u8]) -> usize
    ensures value { result ≡ prefix_len is_digit bytes.now }
    ensures within { result ≤ length bytes.now }
{
    bytes.iter().take_while(|b| b.is_ascii_digit()).count()
}

fn is_digit_next(bytes: &[u8]) -> bool
    ensures { result ≡ begins is_digit bytes.now }
{
    match bytes {
        [first, ..] => first.is_ascii_digit(),
        [] => false,
    }
}

// Whether digits begin here, or a `-` and digits.
pub(crate) fn is_run_next(bytes: &[u8]) -> bool
    ensures { result ≡ begins_run bytes.now }
{
    match bytes {
        [first, rest @ ..] => first.is_ascii_digit() || (*first == b'-' && is_digit_next(rest)),
        [] => false,
    }
}

// How many bytes they have.
fn digits_run_len(bytes: &[u8]) -> usize
    ensures value { result ≡ run_len bytes.now }
    ensures within { result ≤ length bytes.now }
{
    match bytes {
        [b'-', digits @ ..] => 1 + digits_len(digits),
        _ => digits_len(bytes),
    }
}

// The number that the digits are, unless it is above 2^63.
fn magnitude(digits: &[u8]) -> Option<u64>
    ensures { MatchOption result (2 ^ 63 < decimal digits.now) (λ n. (n ≡ decimal digits.now) × (n ≤ 2 ^ 63)) }
{
    let mut n: u64 = 0;
    for b in digits {
        let digit = u64::from(b.saturating_sub(b'0'));
        if n > (9223372036854775808 - digit) / 10 {
            return None;
        }
        n = n * 10 + digit;
    }
    Some(n)
}

fn is_good_magnitude(is_negative: bool, digits: &[u8]) -> bool
    ensures { result ≡ is_magnitude is_negative digits.now }
{
    if let [b'0', ..] = digits {
        return digits.len() <= 1 && !is_negative;
    }
    match magnitude(digits) {
        Some(n) => is_negative || n < 9223372036854775808,
        None => false,
    }
}

// Whether a run is an integer.
fn is_good_run(run: &[u8]) -> bool
    ensures { result ≡ is_integer run.now }
{
    match run {
        [b'-', digits @ ..] => is_good_magnitude(true, digits),
        [_, ..] => is_good_magnitude(false, run),
        [] => false,
    }
}

// How many bytes the integer at the front has, where one stands there.
pub(crate) fn integer_at_front(bytes: &[u8]) -> Option<usize>
    ensures value { result ≡ integer_len bytes.now }
    ensures within { IfSome result (λ n. n ≤ length bytes.now) }
{
    let n = digits_run_len(bytes);
    if is_run_next(bytes) && is_good_run(&bytes[..n]) && !is_word_next(&bytes[n..]) {
        Some(n)
    } else {
        None
    }
}

/// The value of an integer token, by its bytes.
#[tactic(auto, using(crate::proofs::Numbers::integer_complete))]
pub fn integer_value(bytes: &[u8]) -> i64
    requires { IsToken TokenKind.Integer bytes.now }
    ensures { result ≡ integer_value bytes.now }
{
    match bytes {
        [b'-', digits @ ..] => negative_value(digits),
        _ => positive_value(bytes),
    }
}

fn negative_value(digits: &[u8]) -> i64
    requires { decimal digits.now ≤ 2 ^ 63 }
    ensures { result ≡ neg_ℤ (pos (decimal digits.now)) }
{
    match magnitude(digits) {
        Some(9223372036854775808) => i64::MIN,
        Some(n) => -(n as i64),
        None => unreachable!(),
    }
}

fn positive_value(digits: &[u8]) -> i64
    requires { decimal digits.now < 2 ^ 63 }
    ensures { result ≡ pos (decimal digits.now) }
{
    match magnitude(digits) {
        Some(n) => n as i64,
        None => unreachable!(),
    }
}
