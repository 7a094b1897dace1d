//! The tokens of a file, one after the other.

ghost use Rattle.std.specs.Prelude.{◌≡◌, ◌≤◌, length};
ghost use Rattle.gn_tokens.specs.Next.{Reader, IsNext, next_token, offset_behind};
ghost use Rattle.gn_tokens.specs.Stream.{stream_with, stream_of};

use crate::front::token_from;
use crate::token::{Token, TokenError};
use std::marker::Model;

/// Reads the tokens of a file, one after the other.
#[derive(Drop)]
pub struct Tokens<'a> {
    bytes: &'a [u8],
    at: usize,
}

// A caller sees the bytes of the file, and the offset from which the next token is looked for.
impl<'a> Model for Tokens<'a> {
    ghost Value = { Reader };

    ghost view = { λ t. record { bytes = t.bytes.now; at = t.at } };

    ghost invariant = { λ t. t.at ≤ length t.bytes.now };
}

impl<'a> Tokens<'a> {
    /// The tokens of these bytes, from the first on.
    pub fn new(bytes: &'a [u8]) -> Self
        ensures bytes { result.bytes ≡ bytes.now }
        ensures at { result.at ≡ 0 }
    {
        Tokens { bytes, at: 0 }
    }

    /// The next token, which is the longest that begins there; none where only white space and comments are left, then and ever after.
    /// White space and comments are passed over. Where no token begins, the error is given, and the same error again at each later call.
    #[tactic(auto, using(crate::proofs::Next::next_token_is_next, crate::proofs::Stream::stream_next))]
    pub fn next(&mut self) -> Result<Option<Token>, TokenError>
        ensures next { IsNext self.old result }
        ensures value { result ≡ next_token self.old.bytes self.old.at }
        ensures stream { stream_of self.old ≡ stream_with result (stream_of self.new) }
        ensures bytes { self.new.bytes ≡ self.old.bytes }
        ensures at { self.new.at ≡ offset_behind self.old.at result }
    {
        let found = token_from(self.bytes, self.at);
        if let Ok(Some(token)) = found {
            self.at = token.end;
        }
        found
    }
}
