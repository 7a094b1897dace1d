// The tokens of a file with the next one in hand.

ghost use Rattle.std.specs.Prelude.{◌≡◌, ◌≤◌, length, Some};
ghost use Rattle.gn_tokens.specs.declared.token.TokenKind.{TokenKind};
ghost use Rattle.gn_tokens.specs.Token.{IsToken};
ghost use Rattle.gn_grammar.specs.Position.{position_of};
ghost use Rattle.gn_grammar.specs.Lexemes.{lexemes, last_of};
ghost use Rattle.gn_syntax.specs.Parsing.{Follows, StandsAt, front, rest_of, start_of, position_at, text_at, refusal, is_end};

use crate::place::{BEGINNING, behind_bytes};
use gn_grammar::SyntaxFault;
use gn_tokens::{Token, TokenError, TokenKind, Tokens};
use gn_tree::Position;
use std::marker::Model;

/// The tokens that are left of a file. The next one is in hand, with its position, which is counted on from token to token.
#[derive(Drop)]
pub(crate) struct Lookahead<'a> {
    bytes: &'a [u8],
    tokens: Tokens<'a>,
    hand: Result<Option<Token>, TokenError>,
    position: Position,
}

impl<'a> Model for Lookahead<'a> {
    ghost use Rattle.std.specs.Prelude.{◌≡◌};
    ghost use Rattle.gn_tokens.specs.Stream.{stream_with, stream_of};
    ghost use Rattle.gn_syntax.specs.Parsing.{Ahead, ahead_of, IsInHand};

    ghost Value = { Ahead };

    ghost view = { λ a. ahead_of a.bytes.now (stream_with a.hand (stream_of a.tokens)) };

    ghost invariant = { λ a. (a.tokens.bytes ≡ a.bytes.now) × IsInHand a.bytes.now a.tokens.at a.position a.hand };
}

// The position of the token in hand, counted from an offset that does not lie behind it.
#[tactic(auto, using(crate::proofs::Hands::stands_at))]
fn position_in_hand(
    bytes: &[u8],
    from: usize,
    position: Position,
    hand: Result<Option<Token>, TokenError>,
) -> Position
    requires position { position ≡ position_of bytes.now from }
    requires follows { Follows bytes.now from hand }
    ensures { StandsAt bytes.now result hand }
{
    match hand {
        Ok(Some(token)) => behind_bytes(position, &bytes[from..token.start]),
        _ => position,
    }
}

impl<'a> Lookahead<'a> {
    /// The tokens of a file.
    #[tactic(auto, using(crate::proofs::Hands::follows, crate::proofs::Hands::in_hand))]
    pub(crate) fn new(bytes: &'a [u8]) -> Self
        ensures tokens { result.tokens ≡ lexemes bytes.now }
        ensures last { result.last ≡ last_of bytes.now }
    {
        let mut tokens = Tokens::new(bytes);
        let hand = tokens.next();
        let position = position_in_hand(bytes, 0, BEGINNING, hand);
        Lookahead {
            bytes,
            tokens,
            hand,
            position,
        }
    }

    /// The kind of the next token.
    pub(crate) fn peek(&self) -> Option<TokenKind>
        ensures { result ≡ front self.now.tokens }
    {
        match self.hand {
            Ok(Some(token)) => Some(token.kind),
            _ => None,
        }
    }

    /// The offset of the next token.
    pub(crate) fn start(&self) -> usize
        ensures { result ≡ start_of self.now.tokens }
    {
        match self.hand {
            Ok(Some(token)) => token.start,
            _ => 0,
        }
    }

    /// The position of the next token.
    pub(crate) fn position(&self) -> Position
        ensures { result ≡ position_at self.now.tokens }
    {
        match self.hand {
            Ok(Some(_)) => self.position,
            _ => Position { line: 0, column: 0 },
        }
    }

    /// The bytes of the next token.
    pub(crate) fn text(&self) -> &'a [u8]
        ensures text { result.now ≡ text_at self.now.tokens }
        ensures is_token { (kind : TokenKind) → front self.now.tokens ≡ Some kind → IsToken kind result.now }
    {
        match self.hand {
            Ok(Some(token)) => &self.bytes[token.start..token.end],
            _ => &self.bytes[..0],
        }
    }

    /// The error of a file in which the next token cannot come.
    pub(crate) fn refuse(&self) -> SyntaxFault
        ensures { result ≡ refusal self.now.last self.now.tokens }
    {
        match self.hand {
            Ok(Some(token)) => SyntaxFault::Unexpected(token.start),
            Ok(None) => SyntaxFault::Unexpected(self.bytes.len()),
            Err(error) => SyntaxFault::Token(error),
        }
    }

    /// Whether the file ends behind the last token, and no token is left.
    pub(crate) fn is_at_end(&self) -> bool
        ensures { result ≡ is_end self.now.last self.now.tokens }
    {
        matches!(self.hand, Ok(None))
    }

    /// Goes past the next token.
    #[tactic(auto, using(crate::proofs::Hands::follows, crate::proofs::Hands::in_hand))]
    pub(crate) fn advance(&mut self)
        ensures tokens { self.new.tokens ≡ rest_of self.old.tokens }
        ensures last { self.new.last ≡ self.old.last }
    {
        if let Ok(Some(token)) = self.hand {
            self.hand = self.tokens.next();
            self.position = position_in_hand(self.bytes, token.start, self.position, self.hand);
        }
    }
}
