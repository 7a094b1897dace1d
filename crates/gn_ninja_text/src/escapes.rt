// Paths and values of a Ninja file.

ghost use Rattle.std.specs.Prelude.{◌≡◌, ◌++◌, IfOk, OnOk, Some, false};
ghost use Rattle.gn_ninja_text.specs.Escapes.{path_escaped, value_escaped, doubled, path_read, value_read, has_bare_separator};

use crate::marks::append_marked;
use gn_paths::Text;
use std::alloc::{AllocError, Global};

/// A path as a Ninja file has it: a `$` stands before each `$`, space and `:`, and every other byte as it is. By these
/// escapes the path is read back, and no space or colon in it ends the path. A newline, carriage return, NUL or `|`, for
/// which Ninja has no escape, stands as it is.
#[tactic(auto, using(crate::proofs::MarkLemmas::path_reads_back, crate::proofs::MarkLemmas::path_has_no_end), unfolding(crate::specs::Escapes::path_escaped))]
pub fn escape_path(alloc: Global, path: &[u8]) -> Result<Text, AllocError>
    ensures text { IfOk result (λ t. t ≡ path_escaped path.now) }
    ensures reads_back { IfOk result (λ t. path_read t ≡ Some path.now) }
    ensures no_end_within { IfOk result (λ t. has_bare_separator t ≡ false) }
{
    let mut text = Vec::with_capacity(alloc, path.len())?;
    append_marked(&mut text, path, b'$', b"$ :")?;
    Ok(Text::from_vec(text))
}

#[tactic(auto, unfolding(crate::specs::Escapes::value_escaped))]
fn value_text(alloc: Global, value: &[u8]) -> Result<Vec<u8>, AllocError>
    ensures { IfOk result (λ t. t.items ≡ value_escaped value.now) }
{
    let mut text = Vec::with_capacity(alloc, value.len())?;
    if value.starts_with(b" ") {
        text.push(b'$')?;
    }
    append_marked(&mut text, value, b'$', b"$")?;
    Ok(text)
}

/// The value of a variable as a Ninja file has it: each `$` is `$$`, a space at its beginning is `$ `, and every other
/// byte stands as it is. By these escapes, and with the spaces behind the `=` dropped, the value is read back. A newline,
/// carriage return or NUL, for which Ninja has no escape, stands as it is.
#[tactic(auto, using(crate::proofs::MarkLemmas::value_reads_back))]
pub fn escape_value(alloc: Global, value: &[u8]) -> Result<Text, AllocError>
    ensures text { IfOk result (λ t. t ≡ value_escaped value.now) }
    ensures reads_back { IfOk result (λ t. value_read t ≡ Some value.now) }
{
    Ok(Text::from_vec(value_text(alloc, value)?))
}

/// Puts bytes that stand in a value behind its beginning at the end: each `$` is `$$`, and every other byte stands as it is.
pub fn append_doubled(text: &mut Vec<u8>, bytes: &[u8]) -> Result<(), AllocError>
    ensures { OnOk result (text.new.items ≡ text.old.items ++ doubled bytes.now) }
{
    append_marked(text, bytes, b'$', b"$")
}
