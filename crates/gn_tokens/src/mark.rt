//! Marks.

ghost use Rattle.std.specs.Prelude.{◌≡◌, ◌≤◌, ℕ, List, ◌∷◌, length, IfSome};
ghost use Rattle.gn_tokens.specs.Front.{front_mark};
ghost use Rattle.gn_tokens.specs.Mark.{IsMark};

use crate::token::TokenKind;

// The mark at the front, and its length.
pub(crate) fn mark_at_front(bytes: &[u8]) -> Option<(TokenKind, usize)>
    ensures mark { (b : ℕ) (bs : List ℕ) → bytes.now ≡ b ∷ bs → IsMark (front_mark b bs) result }
    ensures within { IfSome result (λ m. m.1 ≤ length bytes.now) }
{
    let found = match bytes {
        [b'=', b'=', ..] => (TokenKind::Equal, 2),
        [b'=', ..] => (TokenKind::Assign, 1),
        [b'+', b'=', ..] => (TokenKind::AddAssign, 2),
        [b'+', ..] => (TokenKind::Plus, 1),
        [b'-', b'=', ..] => (TokenKind::SubAssign, 2),
        [b'-', ..] => (TokenKind::Minus, 1),
        [b'!', b'=', ..] => (TokenKind::NotEqual, 2),
        [b'!', ..] => (TokenKind::Not, 1),
        [b'<', b'=', ..] => (TokenKind::LessEqual, 2),
        [b'<', ..] => (TokenKind::Less, 1),
        [b'>', b'=', ..] => (TokenKind::GreaterEqual, 2),
        [b'>', ..] => (TokenKind::Greater, 1),
        [b'&', b'&', ..] => (TokenKind::And, 2),
        [b'|', b'|', ..] => (TokenKind::Or, 2),
        [b'.', ..] => (TokenKind::Dot, 1),
        [b',', ..] => (TokenKind::Comma, 1),
        [b'(', ..] => (TokenKind::OpenParen, 1),
        [b')', ..] => (TokenKind::CloseParen, 1),
        [b'[', ..] => (TokenKind::OpenBracket, 1),
        [b']', ..] => (TokenKind::CloseBracket, 1),
        [b'{', ..] => (TokenKind::OpenBrace, 1),
        [b'}', ..] => (TokenKind::CloseBrace, 1),
        _ => return None,
    };
    Some(found)
}
