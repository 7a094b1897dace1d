// Where bytes stand in a text, and the forms of a path's text.

ghost use Rattle.std.specs.Prelude.{◌≡◌, ◌≤◌, ◌==◌, length};
ghost use Rattle.std.specs.List.{position_or_len};
ghost use Rattle.gn_paths.specs.Components.{is_source, is_system};
ghost use Rattle.gn_paths.specs.Resolve.{start_of};
ghost use Rattle.gn_labels.specs.Reading.{starts_in_source};

use gn_paths::{Path, is_source, is_system};

// How many bytes stand before the first `byte`.
pub(crate) fn len_before(text: &[u8], byte: u8) -> usize
    ensures value { result ≡ position_or_len (λ b. b == byte) text.now }
    ensures within { result ≤ length text.now }
{
    for (i, here) in text.iter().enumerate() {
        if *here == byte {
            return i;
        }
    }
    text.len()
}

fn start_is_source(current: &Path, text: &[u8]) -> bool
    ensures { result ≡ is_source (start_of current.now text.now) }
{
    if is_source(text) {
        true
    } else {
        is_source(current.as_bytes())
    }
}

// Whether a directory's text starts in the source tree.
pub(crate) fn starts_in_source(current: &Path, text: &[u8]) -> bool
    ensures { result ≡ starts_in_source current.now text.now }
{
    !is_system(text) && start_is_source(current, text)
}
