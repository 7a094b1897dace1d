// The forms of a path's text, and its pieces.

ghost use Rattle.std.specs.Prelude.{◌≡◌, ◌≤◌, length};
ghost use Rattle.std.specs.List.{position_or_len};
ghost use Rattle.gn_paths.specs.Components.{is_slash, is_source, is_system, is_absolute, ends_in_slash, without_final_slash, top_of};
ghost use Rattle.gn_paths.specs.Normal.{is_path_byte};
ghost use Rattle.gn_paths.specs.Resolve.{stays_there};
ghost use Rattle.gn_paths.specs.Directory.{leads_down};

/// Whether a byte may stand in a path: it is neither NUL nor a newline.
pub fn is_path_byte(byte: u8) -> bool
    ensures { result ≡ is_path_byte byte }
{
    byte != 0 && byte != b'\n'
}

/// Whether a text is a path of the source tree, which begins with two slashes.
pub fn is_source(text: &[u8]) -> bool
    ensures { result ≡ is_source text.now }
{
    text.starts_with(b"//")
}

// Whether a text begins with a slash.
pub(crate) fn is_absolute(text: &[u8]) -> bool
    ensures { result ≡ is_absolute text.now }
{
    text.starts_with(b"/")
}

/// Whether a text is a system path, which begins with one slash and not with two.
pub fn is_system(text: &[u8]) -> bool
    ensures { result ≡ is_system text.now }
{
    !is_source(text) && is_absolute(text)
}

/// Whether a piece of a text leads nowhere: it is empty or `.`.
#[tactic(auto, using(gn_basics::proofs::Texts::bytes_eq_nil))]
pub fn stays_there(piece: &[u8]) -> bool
    ensures { result ≡ stays_there piece.now }
{
    piece.is_empty() || piece == b".".as_slice()
}

/// Whether a component leads down: it isn't empty, `.` or `..`.
pub fn leads_down(component: &[u8]) -> bool
    ensures { result ≡ leads_down component.now }
{
    !stays_there(component) && component != b"..".as_slice()
}

pub(crate) fn ends_in_slash(text: &[u8]) -> bool
    ensures { result ≡ ends_in_slash text.now }
{
    text.ends_with(b"/")
}

pub(crate) fn without_final_slash(text: &[u8]) -> &[u8]
    ensures { result.now ≡ without_final_slash text.now }
{
    if ends_in_slash(text) {
        &text[..text.len() - 1]
    } else {
        text
    }
}

// How many bytes stand before the slash of the first component.
pub(crate) fn top_len(path: &[u8]) -> usize
    ensures { result ≡ length (top_of path.now) }
{
    if is_source(path) { 1 } else { 0 }
}

// How many bytes stand before the first slash.
pub(crate) fn piece_len(text: &[u8]) -> usize
    ensures value { result ≡ position_or_len is_slash text.now }
    ensures within { result ≤ length text.now }
{
    for (i, byte) in text.iter().enumerate() {
        if *byte == b'/' {
            return i;
        }
    }
    text.len()
}
