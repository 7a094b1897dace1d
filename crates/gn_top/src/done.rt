// The last line of a build whose files were put.

ghost use Rattle.std.specs.Prelude.{◌≡◌, ◌++◌, OnOk, decimal, length};
ghost use Rattle.gn_top.specs.Texts.{done_line};
ghost use Rattle.gn_top.specs.Building.{faultless_view};

use crate::faultless::Faultless;
use crate::texts::{DONE, FILES, TARGETS_FROM};
use itoa::Buffer;
use std::alloc::AllocError;

// Puts a text and a number behind it at the end.
fn append_count(text: &mut Vec<u8>, before: &[u8], number: usize) -> Result<(), AllocError>
    ensures { OnOk result (text.new.items ≡ text.old.items ++ (before.now ++ decimal number)) }
{
    let mut buffer = Buffer::new();
    text.extend_from_slice(before)?;
    text.extend_from_slice(buffer.format(number).as_bytes())
}

// Puts the line at the end of so many targets from so many build files.
fn append_line(text: &mut Vec<u8>, targets: usize, files: usize) -> Result<(), AllocError>
    ensures { OnOk result (text.new.items ≡ text.old.items ++ done_line targets files) }
{
    append_count(text, DONE.as_bytes(), targets)?;
    append_count(text, TARGETS_FROM.as_bytes(), files)?;
    text.extend_from_slice(FILES.as_bytes())?;
    Ok(())
}

/// Puts the last line of a build at the end: how many targets it generates, from how many build files.
pub(crate) fn append_done(text: &mut Vec<u8>, build: &Faultless<'_, '_>) -> Result<(), AllocError>
    ensures { OnOk result (text.new.items ≡ text.old.items ++ done_line (length (faultless_view build.now).loaded.generated) (length (faultless_view build.now).loaded.loaded)) }
{
    append_line(text, build.build.loaded.generated().len(), build.loaded)
}
