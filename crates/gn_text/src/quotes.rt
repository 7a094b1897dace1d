// Texts between double quotes.

ghost use Rattle.std.specs.Prelude.{◌≡◌, IfOk};
ghost use Rattle.gn_text.specs.Quoted.{needs_backslash, quoted};

use std::alloc::{AllocError, Global};

fn needs_backslash(byte: u8) -> bool
    ensures { result ≡ needs_backslash byte }
{
    byte == b'"' || byte == b'$' || byte == b'\\'
}

/// The bytes between double quotes, with a backslash before each `"`, `$` and `\`.
pub fn quote(alloc: Global, value: &[u8]) -> Result<Vec<u8>, AllocError>
    ensures { IfOk result (λ text. text.items ≡ quoted value.now) }
{
    let mut text = Vec::with_capacity(alloc, value.len() + 2)?;
    text.push(b'"')?;
    for byte in value {
        if needs_backslash(*byte) {
            text.push(b'\\')?;
        }
        text.push(*byte)?;
    }
    text.push(b'"')?;
    Ok(text)
}
