// Which trees: how operators group, and the pieces of strings.

use crate::rows::{bytes_of, field, is_shown, table};
use gn_paths::Text;
use gn_syntax::parse;
use gn_tree::{Block, Expr, Piece, Position, Statement, Subscript};
use std::alloc::{AllocError, Global};

/// A file, the operator at the top of the value, and whether its left and its right operand are operators with operands.
pub(crate) const GROUPED: &str = table! {
    "x = a || b && c", "(Or, false, true)";
    "x = a && b || c", "(Or, true, false)";
    "x = a && b == c", "(And, false, true)";
    "x = a != b && c", "(And, true, false)";
    "x = a == b < c", "(Equal, false, true)";
    "x = a > b != c", "(NotEqual, true, false)";
    "x = a >= b + c", "(GreaterEqual, false, true)";
    "x = a - b <= c", "(LessEqual, true, false)";
    "x = a - b + c", "(Add, true, false)";
    "x = a < b > c", "(Greater, true, false)";
    "x = a == b == c", "(Equal, true, false)";
    "x = a || b || c", "(Or, true, false)";
    "x = a - (b - c)", "(Subtract, false, false)";
    "x = !a && b", "(And, false, false)";
};

fn value_of(block: &Block) -> Option<&Expr> {
    match block.statements() {
        [Statement::Assignment { value, .. }] => Some(value),
        _ => None,
    }
}

fn is_binary(expr: &Expr) -> bool {
    matches!(expr, Expr::Binary { .. })
}

fn has_grouping(alloc: Global, block: &Block, wanted: &str) -> Result<bool, AllocError> {
    match value_of(block) {
        Some(
            Expr::Binary {
                operator,
                left,
                right,
                ..
            },
        ) => is_shown(
            alloc,
            (*operator, is_binary(left.get()), is_binary(right.get())),
            wanted,
        ),
        _ => Ok(false),
    }
}

/// Whether operators group as the row expects.
pub(crate) fn is_grouped(alloc: Global, row: &str) -> Result<bool, AllocError> {
    match parse(alloc, field(row, 0).as_bytes()) {
        Ok(parsed) => has_grouping(alloc, parsed.block(), field(row, 1)),
        Err(_) => Ok(false),
    }
}

/// A file, and the pieces of its string with a bar behind each: bytes as they are, and an expansion with the line and the
/// column of its `$`. Each character stands for the byte of its number.
pub(crate) const STRINGS: &str = table! {
    "x = \"\"", "";
    "x = \"a#b\"", "a#b|";
    // An escape is its second byte, any other backslash is itself.
    "x = \"\\\"\\\\\\$a\\n\"", "\"\\$a\\n|";
    "x = \"\\\\$a\"", "\\|<1 8 a>|";
    "x = \"a$0x0Ab$0xfF\"", "a\nb\u{FF}|";
    "x = \"$iff-$a_1\"", "<1 6 iff>|-|<1 11 a_1>|";
    "x = \"$a ${b}.${c.d}\"", "<1 6 a>| |<1 9 b>|.|<1 14 c.d>|";
    "x = \"${a[i]}${b[-1]}${c[0]}\"", "<1 6 a[i]>|<1 13 b[-1]>|<1 21 c[0]>|";
    "\n  x = \"$a\"", "<2 8 a>|";
};

// Puts the beginning of an expansion at the end.
fn push_name(
    alloc: Global,
    shown: &mut Vec<u8>,
    position: Position,
    name: &Text,
) -> Result<(), AllocError> {
    let Position { line, column } = position;
    let place = format!(in alloc; "<{line} {column} ")?;
    shown.extend_from_slice(place.as_bytes())?;
    shown.extend_from_slice(name.as_bytes())
}

fn push_integer(alloc: Global, shown: &mut Vec<u8>, value: i64) -> Result<(), AllocError> {
    let text = format!(in alloc; "{value}")?;
    shown.extend_from_slice(text.as_bytes())
}

fn push_subscript(
    alloc: Global,
    shown: &mut Vec<u8>,
    subscript: &Subscript,
) -> Result<(), AllocError> {
    match subscript {
        Subscript::Name(name) => shown.extend_from_slice(name.as_bytes()),
        Subscript::Integer(value) => push_integer(alloc, shown, *value),
    }
}

// Puts what stands behind the name of an expansion at the end.
fn push_rest(alloc: Global, shown: &mut Vec<u8>, piece: &Piece) -> Result<(), AllocError> {
    match piece {
        Piece::Item { subscript, .. } => {
            shown.extend_from_slice(b"[")?;
            push_subscript(alloc, shown, subscript)?;
            shown.extend_from_slice(b"]>|")
        }
        Piece::Entry { entry, .. } => {
            shown.extend_from_slice(b".")?;
            shown.extend_from_slice(entry.as_bytes())?;
            shown.extend_from_slice(b">|")
        }
        Piece::Name { .. } => shown.extend_from_slice(b">|"),
        Piece::Bytes(_) => shown.extend_from_slice(b"|"),
    }
}

fn push_front(alloc: Global, shown: &mut Vec<u8>, piece: &Piece) -> Result<(), AllocError> {
    match piece {
        Piece::Bytes(bytes) => shown.extend_from_slice(bytes.as_bytes()),
        Piece::Name { position, name } => push_name(alloc, shown, *position, name),
        Piece::Item { position, base, .. } => push_name(alloc, shown, *position, base),
        Piece::Entry { position, base, .. } => push_name(alloc, shown, *position, base),
    }
}

fn push_piece(alloc: Global, shown: &mut Vec<u8>, piece: &Piece) -> Result<(), AllocError> {
    push_front(alloc, shown, piece)?;
    push_rest(alloc, shown, piece)
}

fn push_pieces(alloc: Global, shown: &mut Vec<u8>, block: &Block) -> Result<(), AllocError> {
    let Some(Expr::String { pieces, .. }) = value_of(block) else {
        return shown.extend_from_slice(b"no string");
    };
    for piece in pieces.as_slice() {
        push_piece(alloc, shown, piece)?;
    }
    Ok(())
}

fn push_pieces_of(alloc: Global, shown: &mut Vec<u8>, file: &[u8]) -> Result<(), AllocError> {
    match parse(alloc, file) {
        Ok(parsed) => push_pieces(alloc, shown, parsed.block()),
        Err(_) => shown.extend_from_slice(b"no file"),
    }
}

fn has_pieces(alloc: Global, file: &[u8], wanted: &[u8]) -> Result<bool, AllocError> {
    let mut shown = Vec::new(alloc);
    push_pieces_of(alloc, &mut shown, file)?;
    Ok(shown.as_slice() == wanted)
}

/// Whether a string is cut into the pieces of its row.
pub(crate) fn is_cut(alloc: Global, row: &str) -> Result<bool, AllocError> {
    let file = bytes_of(alloc, field(row, 0))?;
    let wanted = bytes_of(alloc, field(row, 1))?;
    has_pieces(alloc, &file, &wanted)
}
