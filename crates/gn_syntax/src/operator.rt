// Which tokens are operators.

ghost use Rattle.std.specs.Prelude.{◌≡◌, ◌≤◌, MatchOption, Some, None};
ghost use Rattle.gn_grammar.specs.Grammar.{priority, mark_of, assign_mark};
ghost use Rattle.gn_syntax.specs.Parsing.{level_of, sign_of};

use gn_tokens::TokenKind;
use gn_tree::{AssignOp, BinaryOp};

/// How tightly an operator binds.
pub(crate) fn priority(operator: BinaryOp) -> u8
    ensures { result ≡ priority operator }
{
    match operator {
        BinaryOp::Add | BinaryOp::Subtract => 5,
        BinaryOp::Less | BinaryOp::LessEqual | BinaryOp::Greater | BinaryOp::GreaterEqual => 4,
        BinaryOp::Equal | BinaryOp::NotEqual => 3,
        BinaryOp::And => 2,
        BinaryOp::Or => 1,
    }
}

/// The operator between operands that a token is.
pub(crate) fn operator_of(kind: TokenKind) -> Option<BinaryOp>
    ensures { MatchOption result (level_of (Some kind) ≡ 0) (λ op. (kind ≡ mark_of op) × (level_of (Some kind) ≡ priority op) × (1 ≤ priority op) × (priority op ≤ 5)) }
{
    Some(match kind {
        TokenKind::Plus => BinaryOp::Add,
        TokenKind::Minus => BinaryOp::Subtract,
        TokenKind::Less => BinaryOp::Less,
        TokenKind::LessEqual => BinaryOp::LessEqual,
        TokenKind::Greater => BinaryOp::Greater,
        TokenKind::GreaterEqual => BinaryOp::GreaterEqual,
        TokenKind::Equal => BinaryOp::Equal,
        TokenKind::NotEqual => BinaryOp::NotEqual,
        TokenKind::And => BinaryOp::And,
        TokenKind::Or => BinaryOp::Or,
        _ => return None,
    })
}

/// The operator of an assignment that the next token is, if one is there.
pub(crate) fn sign_of(front: Option<TokenKind>) -> Option<AssignOp>
    ensures { result ≡ sign_of front }
{
    match front {
        Some(TokenKind::Assign) => Some(AssignOp::Set),
        Some(TokenKind::AddAssign) => Some(AssignOp::Add),
        Some(TokenKind::SubAssign) => Some(AssignOp::Subtract),
        _ => None,
    }
}
