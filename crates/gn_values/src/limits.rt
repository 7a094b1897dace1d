// How large values may be.

ghost use Rattle.std.specs.Prelude.{◌≡◌, ◌≢◌, ◌++◌, IsTrue, OnOk, OnErr, IfErr, false};
ghost use Rattle.gn_values.specs.Limits.{text_fits};

use crate::error::ValueError;
use gn_paths::Text;

/// How deep a value may nest: a boolean, an integer and a string 0 deep, an empty list and an empty
/// scope 1 deep, and any other list or scope one more than the deepest value in it.
pub const MAX_DEPTH: usize = 200;

/// How many items a list may have.
pub const MAX_ITEMS: usize = 1_048_576;

/// How many bytes a string may have.
pub const MAX_BYTES: usize = 16_777_216;

/// Puts bytes at the end of a string, within the limit of strings. `TooLong` comes exactly where
/// the string would be above it. After a refusal the string is as before.
pub fn append_text(text: &mut Text, bytes: &[u8]) -> Result<(), ValueError>
    ensures ok { OnOk result (text.new ≡ text.old ++ bytes.now) }
    ensures fits { OnOk result (IsTrue (text_fits text.new)) }
    ensures too_long { result ≡ Err ValueError.TooLong → text_fits (text.old ++ bytes.now) ≡ false }
    ensures only { IfErr result (λ e. e ≢ ValueError.Memory → e ≡ ValueError.TooLong) }
    ensures err { OnErr result (text.new ≡ text.old) }
{
    let len = text.len();
    if len > MAX_BYTES || bytes.len() > MAX_BYTES - len {
        return Err(ValueError::TooLong);
    }
    text.append(bytes)?;
    Ok(())
}
