// Arguments that are written out: one string literal without expansions.

ghost use Rattle.std.specs.Prelude.{◌≡◌, ◌∷◌, [], IfSome, true};
ghost use Rattle.gn_tree.specs.Tree.{expr_then, no_exprs};
ghost use Rattle.gn_tree.specs.Views.{expr_of, exprs_of};
ghost use Rattle.gn_tree.specs.declared.piece.Piece.TheVariants.{Bytes};
ghost use Rattle.gn_values.specs.Limits.{text_fits};
ghost use Rattle.gn_outermost.specs.Written.{IsLiteral, IsWrittenOut};

use gn_paths::Text;
use gn_tree::{Call, Expr, Piece};
use gn_values::MAX_BYTES;

// The bytes that a piece is, where it is no expansion.
fn bytes_of(piece: &Piece) -> Option<&Text>
    ensures { IfSome result (λ text. piece.now ≡ Bytes text.now) }
{
    match piece {
        Piece::Bytes(text) => Some(text),
        Piece::Name { .. } => None,
        Piece::Item { .. } => None,
        Piece::Entry { .. } => None,
    }
}

// The bytes of a literal that is one piece.
#[tactic(auto, using(crate::proofs::WrittenLemmas::one_piece))]
fn only_bytes(pieces: &[Piece]) -> Option<&Text>
    ensures { IfSome result (λ text. pieces.now ≡ Bytes text.now ∷ []) }
{
    match pieces {
        [piece] => bytes_of(piece),
        _ => None,
    }
}

// The text of a string literal without expansions.
fn literal(expr: &Expr) -> Option<&Text>
    ensures { IfSome result (λ text. IsLiteral (expr_of expr.now) text.now) }
{
    match expr {
        Expr::String { pieces, .. } => only_bytes(pieces.as_slice()),
        _ => None,
    }
}

// The same where there is nothing else.
#[tactic(auto, using(crate::proofs::WrittenLemmas::one_expr))]
fn only_literal(exprs: &[Expr]) -> Option<&Text>
    ensures { IfSome result (λ text. IsWrittenOut (exprs_of exprs.now) text.now) }
{
    match exprs {
        [expr] => literal(expr),
        _ => None,
    }
}

// A text that a string may have.
fn fitting(text: &Text) -> Option<&Text>
    ensures same { IfSome result (λ t. t.now ≡ text.now) }
    ensures fits { IfSome result (λ t. text_fits t.now ≡ true) }
{
    if text.len() > MAX_BYTES {
        None
    } else {
        Some(text)
    }
}

/// The text of the only argument of a call, where that is a string literal without expansions whose text a string may have.
pub(crate) fn written_argument(call: &Call) -> Option<&Text>
    ensures is { IfSome result (λ text. IsWrittenOut call.now.arguments text.now) }
    ensures fits { IfSome result (λ text. text_fits text.now ≡ true) }
{
    match only_literal(call.arguments.as_slice()) {
        Some(text) => fitting(text),
        None => None,
    }
}
