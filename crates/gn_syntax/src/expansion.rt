// Expansions in a string literal, and bytes by their digits.

ghost use Rattle.std.specs.Prelude.{◌≡◌, ◌+◌, ◌*◌, ◌<◌, ◌≤◌, ◌⊎◌, ℕ, List, true, false, drop, take, IsTrue, IfOk, IfErr, length};
ghost use Rattle.std.specs.List.{prefix_len};
ghost use Rattle.gn_tokens.specs.Bytes.{begins, begins_with, is_digit, is_hex_digit, is_letter, is_word_byte, front_word, past_word, IsIdentifier};
ghost use Rattle.gn_tokens.specs.Number.{run_len, IsInteger};
ghost use Rattle.gn_tokens.specs.Text.{expansion_item, braced_item, is_hex, hex_item, index_len, closes_behind, front_index};
ghost use Rattle.gn_grammar.specs.Pieces.{hex_value, subscript_of, item_before, byte_before};
ghost use Rattle.gn_syntax.specs.Literals.{IsWritten, IsBraced, Expands};
ghost use Rattle.gn_tree.specs.declared.piece.Piece.{Piece};

use crate::error::Stop;
use gn_paths::Text;
use gn_tokens::integer_value;
use gn_tree::{Piece, Position, Subscript};
use std::alloc::{AllocError, Global};

// A letter, a digit or `_`.
fn is_in_word(byte: u8) -> bool
    ensures { result ≡ is_word_byte byte }
{
    byte.is_ascii_alphanumeric() || byte == b'_'
}

// How many bytes the word at the front has.
fn word_len(bytes: &[u8]) -> usize
    ensures value { result ≡ prefix_len is_word_byte bytes.now }
    ensures within { result ≤ length bytes.now }
{
    bytes.iter().take_while(|b| is_in_word(**b)).count()
}

// Whether a word stands at the front.
fn begins_word(bytes: &[u8]) -> bool
    ensures { result ≡ begins is_letter bytes.now }
{
    match bytes {
        [first, ..] => first.is_ascii_alphabetic() || *first == b'_',
        [] => false,
    }
}

// Whether this byte is next.
pub(crate) fn is_next(byte: u8, bytes: &[u8]) -> bool
    ensures { result ≡ begins_with byte bytes.now }
{
    match bytes {
        [first, ..] => *first == byte,
        [] => false,
    }
}

fn digits_len(bytes: &[u8]) -> usize
    ensures value { result ≡ prefix_len is_digit bytes.now }
    ensures within { result ≤ length bytes.now }
{
    bytes.iter().take_while(|b| b.is_ascii_digit()).count()
}

// How many bytes the integer at the front has.
fn integer_length(bytes: &[u8]) -> usize
    ensures value { result ≡ run_len bytes.now }
    ensures within { result ≤ length bytes.now }
{
    match bytes {
        [b'-', digits @ ..] => 1 + digits_len(digits),
        _ => digits_len(bytes),
    }
}

// The value of a hexadecimal digit of either case.
fn hex_digit(byte: u8) -> u8
    requires { IsTrue (is_hex_digit byte) }
    ensures value { result ≡ hex_value byte }
    ensures small { result < 16 }
{
    if byte < b'A' {
        byte - b'0'
    } else if byte < b'a' {
        byte - b'7'
    } else {
        byte - b'W'
    }
}

// What stands between the square brackets of an expansion.
#[tactic(auto, using(crate::proofs::Literals::number_index))]
fn subscript(alloc: Global, index: &[u8]) -> Result<Subscript, AllocError>
    requires { IsIdentifier index.now ⊎ IsInteger index.now }
    ensures { IfOk result (λ s. s ≡ subscript_of index.now) }
{
    if begins_word(index) {
        return Ok(Subscript::Name(Text::from_bytes(alloc, index)?));
    }
    Ok(Subscript::Integer(integer_value(index)))
}

// So many of the bytes.
fn first_ones(bytes: &[u8], count: usize) -> &[u8]
    requires { count ≤ length bytes.now }
    ensures value { result.now ≡ take count bytes.now }
    ensures within { length result.now ≤ length bytes.now }
{
    &bytes[..count]
}

// The bytes behind so many.
pub(crate) fn bytes_behind(bytes: &[u8], count: usize) -> &[u8]
    requires { count ≤ length bytes.now }
    ensures value { result.now ≡ drop count bytes.now }
    ensures len { length result.now + count ≡ length bytes.now }
{
    &bytes[count..]
}

pub(crate) fn after_one(bytes: &[u8]) -> &[u8]
    ensures value { result.now ≡ drop 1 bytes.now }
    ensures within { length result.now ≤ length bytes.now }
{
    match bytes {
        [_, rest @ ..] => rest,
        [] => bytes,
    }
}

// The word at the front.
fn word(bytes: &[u8]) -> &[u8]
    ensures value { result.now ≡ front_word bytes.now }
    ensures within { length result.now ≤ length bytes.now }
{
    first_ones(bytes, word_len(bytes))
}

// What stands behind the word at the front.
fn after_word(bytes: &[u8]) -> &[u8]
    ensures value { result.now ≡ past_word bytes.now }
    ensures within { length result.now ≤ length bytes.now }
{
    bytes_behind(bytes, word_len(bytes))
}

// The subscript at the front, which a bracket closes.
#[tactic(auto, using(crate::proofs::Literals::index_word, crate::proofs::Literals::index_digits))]
fn index(bytes: &[u8]) -> &[u8]
    requires { closes_behind (index_len bytes.now) bytes.now ≡ true }
    ensures value { result.now ≡ front_index (index_len bytes.now) bytes.now }
    ensures within { length result.now ≤ length bytes.now }
{
    if begins_word(bytes) {
        word(bytes)
    } else {
        first_ones(bytes, integer_length(bytes))
    }
}

/// The byte that two hexadecimal digits behind `0x` are.
#[tactic(auto, using(crate::proofs::Literals::hex_digits))]
pub(crate) fn hex_byte(bytes: &[u8]) -> u8
    requires { is_hex bytes.now ≡ true }
    ensures { (position : Position) (later : List Piece) → item_before position (hex_item bytes.now) later ≡ byte_before result later }
{
    match bytes {
        [_, _, high, low, ..] => hex_digit(*high) * 16 + hex_digit(*low),
        _ => unreachable!(),
    }
}

// The expansion of a name.
fn name_piece(alloc: Global, position: Position, name: &[u8]) -> Result<Piece, AllocError>
    ensures { IfOk result (λ p. p ≡ Piece.Name position name.now) }
{
    let name = Text::from_bytes(alloc, name)?;
    Ok(Piece::Name { position, name })
}

// The expansion of an entry.
fn entry_piece(
    alloc: Global,
    position: Position,
    base: &[u8],
    entry: &[u8],
) -> Result<Piece, AllocError>
    ensures { IfOk result (λ p. p ≡ Piece.Entry position base.now entry.now) }
{
    let base = Text::from_bytes(alloc, base)?;
    let entry = Text::from_bytes(alloc, entry)?;
    Ok(Piece::Entry {
        position,
        base,
        entry,
    })
}

// The expansion of an item.
fn item_piece(
    alloc: Global,
    position: Position,
    base: &[u8],
    index: &[u8],
) -> Result<Piece, AllocError>
    requires { IsIdentifier index.now ⊎ IsInteger index.now }
    ensures { IfOk result (λ p. p ≡ Piece.Item position base.now (subscript_of index.now)) }
{
    let subscript = subscript(alloc, index)?;
    let base = Text::from_bytes(alloc, base)?;
    Ok(Piece::Item {
        position,
        base,
        subscript,
    })
}

// What stands behind `${`, and how many bytes the expansion has.
fn braced(alloc: Global, position: Position, bytes: &[u8]) -> Result<(Piece, usize), Stop>
    requires { IsBraced bytes.now }
    ensures ok { IfOk result (λ r. IsWritten position (braced_item (front_word bytes.now) (past_word bytes.now)) r.0 r.1) }
    ensures err { IfErr result (λ e. e ≡ Stop.Memory) }
{
    let name = word(bytes);
    let rest = after_word(bytes);
    let inner = after_one(rest);
    if is_next(b'}', rest) {
        let whole = name_piece(alloc, position, name)?;
        return Ok((whole, name.len() + 3));
    }
    if is_next(b'.', rest) {
        let field = word(inner);
        let entry = entry_piece(alloc, position, name, field)?;
        return Ok((entry, name.len() + field.len() + 4));
    }
    let index = index(inner);
    let item = item_piece(alloc, position, name, index)?;
    Ok((item, name.len() + index.len() + 5))
}

/// The expansion behind a `$`, which does not begin with a digit, and how many bytes it has.
#[tactic(auto, using(crate::proofs::Literals::variable_written, crate::proofs::Literals::braced_here, crate::proofs::Literals::braced_written))]
pub(crate) fn named(alloc: Global, position: Position, bytes: &[u8]) -> Result<(Piece, usize), Stop>
    requires right { Expands bytes.now }
    requires no_digit { begins_with 48 bytes.now ≡ false }
    ensures ok { IfOk result (λ r. IsWritten position (expansion_item bytes.now) r.0 r.1) }
    ensures err { IfErr result (λ e. e ≡ Stop.Memory) }
{
    if is_next(b'{', bytes) {
        return braced(alloc, position, after_one(bytes));
    }
    let name = word(bytes);
    let text = name_piece(alloc, position, name)?;
    Ok((text, name.len() + 1))
}
