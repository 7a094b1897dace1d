// Words of a shell.

ghost use Rattle.std.specs.Prelude.{◌≡◌, IfOk, Some};
ghost use Rattle.std.specs.List.{list_all};
ghost use Rattle.gn_ninja_text.specs.Words.{is_plain, is_plain_word, shell_word_of, word_read};

use crate::marks::append_marked;
use gn_paths::Text;
use std::alloc::{AllocError, Global};

fn is_plain(byte: u8) -> bool
    ensures { result ≡ is_plain byte }
{
    byte.is_ascii_alphanumeric() || b"_./=+,@%^-:".contains(&byte)
}

fn are_plain(word: &[u8]) -> bool
    ensures { result ≡ list_all is_plain word.now }
{
    word.iter().all(|byte| is_plain(*byte))
}

fn is_plain_word(word: &[u8]) -> bool
    ensures { result ≡ is_plain_word word.now }
{
    !word.is_empty() && are_plain(word)
}

#[tactic(auto, unfolding(crate::specs::Words::shell_word_of))]
fn word_text(alloc: Global, word: &[u8]) -> Result<Vec<u8>, AllocError>
    ensures { IfOk result (λ t. t.items ≡ shell_word_of word.now) }
{
    if is_plain_word(word) {
        return Vec::from_slice(alloc, word);
    }
    let mut text = Vec::with_capacity(alloc, word.len() + 2)?;
    text.push(b'"')?;
    append_marked(&mut text, word, b'\\', b"\\\"$`")?;
    text.push(b'"')?;
    Ok(text)
}

/// A word of a POSIX shell's command: as it is where it isn't empty and has only letters, digits and
/// `_ . / = + , @ % ^ - :`, and else between double quotes, with a backslash before each `\`, `"`, `$` and backquote.
/// By the rules of double quotes the word is read back. A NUL, which no command can hold, stands as it is.
#[tactic(auto, using(crate::proofs::MarkLemmas::word_reads_back))]
pub fn shell_word(alloc: Global, word: &[u8]) -> Result<Text, AllocError>
    ensures text { IfOk result (λ t. t ≡ shell_word_of word.now) }
    ensures reads_back { IfOk result (λ t. word_read t ≡ Some word.now) }
{
    Ok(Text::from_vec(word_text(alloc, word)?))
}
