// The names of labels.

ghost use Rattle.std.specs.Prelude.{◌≡◌};
ghost use Rattle.std.specs.List.{list_all};
ghost use Rattle.std.specs.Str.{is_utf8};
ghost use Rattle.gn_paths.specs.Components.{pieces};
ghost use Rattle.gn_paths.specs.Directory.{leads_down};
ghost use Rattle.gn_labels.specs.Names.{is_mark, is_name_byte, is_name};

use crate::bytes::len_before;
use gn_paths::{is_path_byte, leads_down};

// Whether a byte has a meaning in labels and patterns.
pub(crate) fn is_mark(byte: u8) -> bool
    ensures { result ≡ is_mark byte }
{
    byte == b'(' || byte == b')' || byte == b'*' || byte == b':'
}

fn is_name_byte(byte: u8) -> bool
    ensures { result ≡ is_name_byte byte }
{
    is_path_byte(byte) && !is_mark(byte)
}

fn has_name_bytes(text: &[u8]) -> bool
    ensures { result ≡ list_all is_name_byte text.now }
{
    text.iter().all(|byte| is_name_byte(*byte))
}

fn is_utf8(text: &[u8]) -> bool
    ensures { result ≡ is_utf8 text.now }
{
    match str::from_utf8(text) {
        Ok(_) => true,
        Err(_) => false,
    }
}

fn has_plain_pieces(text: &[u8]) -> bool
    ensures { result ≡ list_all leads_down (pieces text.now) }
{
    let mut rest = text;
    loop {
        let n = len_before(rest, b'/');
        if !leads_down(&rest[..n]) {
            return false;
        }
        if n == rest.len() {
            return true;
        }
        rest = &rest[n + 1..];
    }
}

/// Whether a text is a name of a label: UTF-8, not empty, without `:`, `(`, `)`, `*`, NUL and newline,
/// and none of its parts between slashes is empty, `.` or `..`.
#[tactic(auto, unfolding(crate::specs::Names::is_name))]
pub fn is_name(text: &[u8]) -> bool
    ensures { result ≡ is_name text.now }
{
    has_name_bytes(text) && (is_utf8(text) && has_plain_pieces(text))
}
