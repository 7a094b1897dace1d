// A text that may name a path, read byte by byte.

ghost use Rattle.std.specs.Prelude.{◌≡◌, ◌==◌, ◌≤◌, true, false, MatchOption, length, take};
ghost use Rattle.std.specs.List.{position_or_len};
ghost use Rattle.simdutf8.specs.Steps.{least_after, most_after};
ghost use Rattle.gn_paths.specs.Components.{is_slash};
ghost use Rattle.gn_paths.specs.Reading.{is_clean, between, begun, next};

use crate::components::is_path_byte;

// How far a character of UTF-8 is read: so many of its bytes are still to come, and the next one is in
// this range.
#[derive(Clone, Copy)]
struct Pending {
    left: u8,
    least: u8,
    most: u8,
}

// Between two characters.
fn between() -> Pending
    ensures { result ≡ between }
{
    Pending {
        left: 0,
        least: 0x80,
        most: 0xBF,
    }
}

fn least_after(byte: u8) -> u8
    ensures { result ≡ least_after byte }
{
    if byte == 0xE0 {
        0xA0
    } else if byte == 0xF0 {
        0x90
    } else {
        0x80
    }
}

fn most_after(byte: u8) -> u8
    ensures { result ≡ most_after byte }
{
    if byte == 0xED {
        0x9F
    } else if byte == 0xF4 {
        0x8F
    } else {
        0xBF
    }
}

// What comes after the first byte of a character.
fn begun(byte: u8) -> Option<Pending>
    ensures { result ≡ begun byte }
{
    if byte < 0x80 {
        return Some(between());
    }
    if byte < 0xC2 || byte > 0xF4 {
        return None;
    }
    if byte < 0xE0 {
        return Some(Pending {
            left: 1,
            least: 0x80,
            most: 0xBF,
        });
    }
    Some(Pending {
        left: if byte < 0xF0 { 2 } else { 3 },
        least: least_after(byte),
        most: most_after(byte),
    })
}

impl Pending {
    fn is_done(self) -> bool
        ensures { result ≡ (self.left == 0) }
    {
        self.left == 0
    }

    // What comes after one more byte.
    fn next(self, byte: u8) -> Option<Pending>
        ensures { result ≡ next self byte }
    {
        if self.left == 0 {
            return begun(byte);
        }
        if byte < self.least || byte > self.most {
            return None;
        }
        Some(Pending {
            left: self.left - 1,
            least: 0x80,
            most: 0xBF,
        })
    }
}

// How many bytes stand before the first slash, if these have no NUL and no newline and are UTF-8. It
// reads them once.
pub(crate) fn clean_piece_len(text: &[u8]) -> Option<usize>
    ensures { MatchOption result (is_clean text.now ≡ false) (λ n. (n ≡ position_or_len is_slash text.now) × (n ≤ length text.now) × (is_clean (take n text.now) ≡ true)) }
{
    let mut pending = between();
    for (i, byte) in text.iter().enumerate() {
        if *byte == b'/' {
            return if pending.is_done() { Some(i) } else { None };
        }
        if !is_path_byte(*byte) {
            return None;
        }
        pending = pending.next(*byte)?;
    }
    if pending.is_done() {
        Some(text.len())
    } else {
        None
    }
}

// Whether a text has no NUL and no newline and is UTF-8. It reads the text once.
pub(crate) fn is_clean(text: &[u8]) -> bool
    ensures { result ≡ is_clean text.now }
{
    let mut rest = text;
    while let Some(n) = clean_piece_len(rest) {
        if n == rest.len() {
            return true;
        }
        rest = &rest[n + 1..];
    }
    false
}
