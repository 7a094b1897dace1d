//! Words: identifiers and reserved words.

ghost use Rattle.std.specs.Prelude.{◌≡◌, ◌≤◌, length};
ghost use Rattle.std.specs.List.{prefix_len};
ghost use Rattle.gn_tokens.specs.Bytes.{is_letter, is_word_byte, begins, begins_with, past_word, is_reserved, is_name};
ghost use Rattle.gn_tokens.specs.Front.{word_kind};

use crate::token::TokenKind;

// A letter or `_`.
pub(crate) fn is_word_start(b: u8) -> bool
    ensures { result ≡ is_letter b }
{
    b.is_ascii_alphabetic() || b == b'_'
}

fn is_in_word(b: u8) -> bool
    ensures { result ≡ is_word_byte b }
{
    b.is_ascii_alphanumeric() || b == b'_'
}

// How many bytes the word at the front has.
pub(crate) fn word_len(bytes: &[u8]) -> usize
    ensures value { result ≡ prefix_len is_word_byte bytes.now }
    ensures within { result ≤ length bytes.now }
{
    bytes.iter().take_while(|b| is_in_word(**b)).count()
}

pub(crate) fn after_word(bytes: &[u8]) -> &[u8]
    ensures { result.now ≡ past_word bytes.now }
{
    &bytes[word_len(bytes)..]
}

pub(crate) fn is_word_next(bytes: &[u8]) -> bool
    ensures { result ≡ begins is_letter bytes.now }
{
    match bytes {
        [first, ..] => is_word_start(*first),
        [] => false,
    }
}

// Whether this byte is next.
pub(crate) fn is_next(byte: u8, bytes: &[u8]) -> bool
    ensures { result ≡ begins_with byte bytes.now }
{
    match bytes {
        [first, ..] => *first == byte,
        [] => false,
    }
}

// The kind of the token that a word is.
pub(crate) fn kind_of_word(word: &[u8]) -> TokenKind
    ensures { result ≡ word_kind word.now }
{
    match word {
        b"if" => TokenKind::If,
        b"else" => TokenKind::Else,
        b"true" => TokenKind::True,
        b"false" => TokenKind::False,
        _ => TokenKind::Identifier,
    }
}

fn is_reserved_word(word: &[u8]) -> bool
    ensures { result ≡ is_reserved word.now }
{
    matches!(word, b"if" | b"else" | b"true" | b"false")
}

// Whether an identifier stands at the front.
pub(crate) fn is_name_next(bytes: &[u8]) -> bool
    ensures { result ≡ is_name bytes.now }
{
    is_word_next(bytes) && !is_reserved_word(&bytes[..word_len(bytes)])
}
