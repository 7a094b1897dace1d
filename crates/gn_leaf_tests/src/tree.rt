// Trees are shared, looked at and dropped. The parser makes them, by the calls of the tree.

use crate::rows::table;
use crate::syntax::push_deepest_left;
use gn_syntax::{Parsed, parse, parse_expr};
use gn_tree::{Block, Call, Condition, Otherwise, Position, Statement};
use std::alloc::{AllocError, Global};

fn is_sent<T: Send + Sync>(_value: &T) -> bool {
    true
}

// The block of a file that is let go.
fn shared(parsed: Parsed) -> Result<Block, AllocError> {
    parsed.block().share()
}

// Whether the test behind `else` stands in column 27.
fn is_chain(condition: &Condition) -> bool {
    match &condition.otherwise {
        Otherwise::ElseIf(inner) => inner.get().test.first_position().column == 27,
        _ => false,
    }
}

fn has_argument_and_block(call: &Call) -> bool {
    call.arguments.as_slice().len() == 1 && call.block.is_some()
}

fn is_whole(block: &Block) -> bool {
    match block.statements() {
        [
            Statement::Assignment { .. },
            Statement::Condition(condition),
            Statement::Call(call),
        ] => { is_chain(condition) && has_argument_and_block(call) }
        _ => false,
    }
}

fn stays_whole(parsed: Parsed) -> Result<bool, AllocError> {
    let block = shared(parsed)?;
    Ok(is_sent(&block) && is_whole(&block))
}

/// Whether a block stays whole where its file is let go.
pub(crate) fn is_shared(alloc: Global) -> Result<bool, AllocError> {
    match parse(alloc, b"a = a if (a) { } else if (a) { } a(a) { }") {
        Ok(parsed) => stays_whole(parsed),
        Err(_) => Ok(false),
    }
}

/// An expression of each kind, whose first token stands in column 4.
pub(crate) const EXPRESSIONS: &str = table! {
    "   a";
    "   1";
    "   \"\"";
    "   true";
    "   a.a";
    "   []";
    "   a(a)";
    "   a[a]";
    "   {}";
    "   (a)";
    "   !a";
    "   a < a";
};

// Whether the text is an expression whose first token stands in this column.
fn begins_in(alloc: Global, text: &[u8], column: u32) -> bool {
    match parse_expr(alloc, text) {
        Ok(expr) => expr.get().first_position() == Position { line: 1, column },
        Err(_) => false,
    }
}

/// Whether the first token of an expression stands in column 4.
pub(crate) fn begins_in_column_4(alloc: Global, text: &str) -> bool {
    begins_in(alloc, text.as_bytes(), 4)
}

/// Whether the deepest tree is made and dropped.
pub(crate) fn is_deepest_dropped(alloc: Global) -> Result<bool, AllocError> {
    let mut bytes = Vec::new(alloc);
    push_deepest_left(&mut bytes)?;
    Ok(begins_in(alloc, &bytes, 1))
}
