//! White space and comments.

ghost use Rattle.std.specs.Prelude.{◌≡◌, ◌+◌, ◌≤◌, length, drop, false};
ghost use Rattle.gn_tokens.specs.Front.{gap_len};

// How many bytes of white space and comments stand at the front.
pub(crate) fn white_len(bytes: &[u8]) -> usize
    ensures value { result ≡ gap_len false bytes.now }
    ensures within { result ≤ length bytes.now }
{
    let mut in_comment = false;
    for (i, b) in bytes.iter().enumerate() {
        if in_comment {
            in_comment = *b != b'\n';
        } else if *b == b'#' {
            in_comment = true;
        } else if !matches!(*b, b' ' | b'\t' | b'\r' | b'\n') {
            return i;
        }
    }
    bytes.len()
}
