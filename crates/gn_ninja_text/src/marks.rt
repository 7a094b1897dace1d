// Bytes behind a mark.

ghost use Rattle.std.specs.Prelude.{◌≡◌, ◌++◌, OnOk};
ghost use Rattle.gn_ninja_text.specs.Marks.{all_marked};

use std::alloc::AllocError;

// Puts the bytes at the end, with `mark` before each of those in `special`.
pub(crate) fn append_marked(
    text: &mut Vec<u8>,
    bytes: &[u8],
    mark: u8,
    special: &[u8],
) -> Result<(), AllocError>
    ensures { OnOk result (text.new.items ≡ text.old.items ++ all_marked mark special.now bytes.now) }
{
    for byte in bytes {
        if special.contains(byte) {
            text.push(mark)?;
        }
        text.push(*byte)?;
    }
    Ok(())
}
