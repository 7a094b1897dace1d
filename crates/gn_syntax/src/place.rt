// Where a byte stands, counted from a place before it.

ghost use Rattle.std.specs.Prelude.{◌≡◌, ◌≤◌, length, take};
ghost use Rattle.gn_value_model.specs.Limits.{max_bytes};
ghost use Rattle.gn_grammar.specs.Position.{line_behind, column_behind};
ghost use Rattle.gn_syntax.specs.Counting.{behind_byte, behind_bytes};

use gn_tree::Position;

/// The position of the first byte of a file.
pub(crate) const BEGINNING: Position = Position { line: 1, column: 1 };

// The position behind a byte.
fn behind_byte(position: Position, byte: u8) -> Position
    ensures { result ≡ behind_byte position byte }
{
    if byte == b'\n' {
        Position {
            line: position.line.saturating_add(1),
            column: 1,
        }
    } else {
        Position {
            line: position.line,
            column: position.column.saturating_add(1),
        }
    }
}

// The position behind bytes, of which the first stands at the position.
pub(crate) fn behind_bytes(position: Position, bytes: &[u8]) -> Position
    ensures { result ≡ behind_bytes position bytes.now }
{
    let mut here = position;
    for byte in bytes {
        here = behind_byte(here, *byte);
    }
    here
}

/// The line and the column of the byte at an offset, or of the end of the file, both counted from 1, columns in bytes.
pub fn place_of(bytes: &[u8], offset: usize) -> (u32, u32)
    requires size { length bytes.now ≤ max_bytes }
    requires within { offset ≤ length bytes.now }
    ensures line { result.0 ≡ line_behind (take offset bytes.now) }
    ensures column { result.1 ≡ column_behind (take offset bytes.now) }
{
    let position = behind_bytes(BEGINNING, &bytes[..offset]);
    (position.line, position.column)
}
