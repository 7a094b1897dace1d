// Values of variables, and the lines that bind them.

ghost use Rattle.std.specs.Prelude.{◌≡◌, ◌++◌, ◌∷◌, OnOk, IfOk, codes, map};
ghost use Rattle.std.specs.List.{flat_map};
ghost use Rattle.gn_ninja_text.specs.Escapes.{value_escaped};
ghost use Rattle.gn_writing.specs.Lines.{plain, command_words, written};
ghost use Rattle.gn_ninja.specs.Format.{behind, word_text, binding_text, line_text};
ghost use Rattle.gn_ninja.specs.Code.{value_of, bound, indented};

use crate::lines::{Binding, Value};
use gn_ninja_text::{append_doubled, escape_value, shell_word};
use gn_paths::Text;
use std::alloc::{AllocError, Global};

// Puts a value as a Ninja file has it at the end.
#[tactic(auto, unfolding(gn_ninja_text::specs::Escapes::value_escaped))]
fn append_value(text: &mut Vec<u8>, value: &[u8]) -> Result<(), AllocError>
    ensures { OnOk result (text.new.items ≡ text.old.items ++ value_escaped value.now) }
{
    if value.starts_with(b" ") {
        text.push(b'$')?;
    }
    append_doubled(text, value)
}

// Puts a text at the end, behind a space unless it is empty.
fn append_behind(text: &mut Vec<u8>, value: &[u8]) -> Result<(), AllocError>
    ensures { OnOk result (text.new.items ≡ text.old.items ++ behind value.now) }
{
    if value.is_empty() {
        return Ok(());
    }
    text.push(b' ')?;
    text.extend_from_slice(value)
}

// A prefix and a word as one word of a command.
fn whole_word(alloc: Global, prefix: &[u8], word: &[u8]) -> Result<Text, AllocError>
    ensures { IfOk result (λ t. 32 ∷ value_escaped t ≡ word_text prefix.now word.now) }
{
    let mut whole = Vec::from_slice(alloc, prefix)?;
    whole.extend_from_slice(word)?;
    shell_word(alloc, &whole)
}

// Puts a word of a command at the end, behind a space.
fn append_word(
    alloc: Global,
    text: &mut Vec<u8>,
    prefix: &[u8],
    word: &[u8],
) -> Result<(), AllocError>
    ensures { OnOk result (text.new.items ≡ text.old.items ++ word_text prefix.now word.now) }
{
    text.push(b' ')?;
    let whole = whole_word(alloc, prefix, word)?;
    append_value(text, whole.as_bytes())
}

// Puts words of a command at the end, each behind a space.
fn append_words(
    alloc: Global,
    text: &mut Vec<u8>,
    prefix: &[u8],
    words: &[Text],
) -> Result<(), AllocError>
    ensures { OnOk result (text.new.items ≡ text.old.items ++ flat_map (word_text prefix.now) words.now) }
{
    for word in words {
        append_word(alloc, text, prefix, word.as_bytes())?;
    }
    Ok(())
}

// Puts what stands behind a `=` at the end.
fn append_plain(alloc: Global, text: &mut Vec<u8>, value: &[u8]) -> Result<(), AllocError>
    ensures { OnOk result (text.new.items ≡ text.old.items ++ behind (value_escaped value.now)) }
{
    let escaped = escape_value(alloc, value)?;
    append_behind(text, escaped.as_bytes())
}

// Puts a name, `=` and what stands before them at the end.
fn append_name(text: &mut Vec<u8>, indent: &[u8], name: &[u8]) -> Result<(), AllocError>
    ensures { OnOk result (text.new.items ≡ text.old.items ++ (indent.now ++ name.now ++ codes " =")) }
{
    text.extend_from_slice(indent)?;
    text.extend_from_slice(name)?;
    text.extend_from_slice(b" =")
}

// Puts the line of a name and bytes at the end.
#[tactic(auto, unfolding(crate::specs::Format::binding_text))]
fn append_plain_line(
    alloc: Global,
    text: &mut Vec<u8>,
    indent: &[u8],
    name: &[u8],
    value: &[u8],
) -> Result<(), AllocError>
    ensures { OnOk result (text.new.items ≡ text.old.items ++ binding_text indent.now name.now (plain value.now)) }
{
    append_name(text, indent, name)?;
    append_plain(alloc, text, value)?;
    text.push(b'\n')?;
    Ok(())
}

// Puts the line of a name and words at the end.
#[tactic(auto, unfolding(crate::specs::Format::binding_text))]
fn append_words_line(
    alloc: Global,
    text: &mut Vec<u8>,
    indent: &[u8],
    name: &[u8],
    prefix: &[u8],
    words: &[Text],
) -> Result<(), AllocError>
    ensures { OnOk result (text.new.items ≡ text.old.items ++ binding_text indent.now name.now (command_words prefix.now words.now)) }
{
    append_name(text, indent, name)?;
    append_words(alloc, text, prefix, words)?;
    text.push(b'\n')?;
    Ok(())
}

// Puts the line of a name and a text as it stands in the file at the end.
#[tactic(auto, unfolding(crate::specs::Format::binding_text))]
fn append_written_line(
    text: &mut Vec<u8>,
    indent: &[u8],
    name: &[u8],
    value: &[u8],
) -> Result<(), AllocError>
    ensures { OnOk result (text.new.items ≡ text.old.items ++ binding_text indent.now name.now (written value.now)) }
{
    append_name(text, indent, name)?;
    append_behind(text, value)?;
    text.push(b'\n')?;
    Ok(())
}

// Puts the line of a binding at the end.
#[tactic(auto, unfolding(crate::specs::Format::binding_text))]
fn append_binding(
    alloc: Global,
    text: &mut Vec<u8>,
    indent: &[u8],
    binding: Binding<'_>,
) -> Result<(), AllocError>
    ensures { OnOk result (text.new.items ≡ text.old.items ++ binding_text indent.now binding.entry.name.now (value_of binding.entry.value)) }
{
    match binding.value {
        Value::Plain(bytes) => append_plain_line(alloc, text, indent, binding.name, bytes.get()),
        Value::PlainIf(Some(value)) => append_plain_line(
            alloc,
            text,
            indent,
            binding.name,
            value.as_bytes(),
        ),
        Value::FixedIf(value, Some(_)) => append_plain_line(
            alloc,
            text,
            indent,
            binding.name,
            value,
        ),
        Value::Words(prefix, words) => append_words_line(
            alloc,
            text,
            indent,
            binding.name,
            prefix,
            words.as_slice(),
        ),
        Value::WordsIf(Some(words)) => append_words_line(
            alloc,
            text,
            indent,
            binding.name,
            b"",
            words.as_slice(),
        ),
        Value::Written(value) => append_written_line(text, indent, binding.name, value.as_bytes()),
        Value::WrittenIf(value) => {
            if value.is_empty() {
                Ok(())
            } else {
                append_written_line(text, indent, binding.name, value.as_bytes())
            }
        }
        Value::PlainIf(None) | Value::FixedIf(_, None) | Value::WordsIf(None) => Ok(()),
    }
}

// Puts bindings of the file at the end.
pub(crate) fn append_bound(
    alloc: Global,
    text: &mut Vec<u8>,
    bindings: &[Binding<'_>],
) -> Result<(), AllocError>
    ensures { OnOk result (text.new.items ≡ text.old.items ++ flat_map line_text (map bound bindings.now)) }
{
    for binding in bindings {
        append_binding(alloc, text, b"", *binding)?;
    }
    Ok(())
}

// Puts bindings of the line above them at the end.
pub(crate) fn append_indented(
    alloc: Global,
    text: &mut Vec<u8>,
    bindings: &[Binding<'_>],
) -> Result<(), AllocError>
    ensures { OnOk result (text.new.items ≡ text.old.items ++ flat_map line_text (map indented bindings.now)) }
{
    for binding in bindings {
        append_binding(alloc, text, b"  ", *binding)?;
    }
    Ok(())
}
