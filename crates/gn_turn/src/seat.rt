//! What a caller takes turns with.
ghost use Rattle.std.specs.Prelude.{◌≡◌};

use crate::kept::Kept;
use crate::rule::Token;

/// One seat of a turn. Its entries bear its number, and it remembers the history that it saw.
#[derive(Drop)]
pub struct Seat<B: Kept> {
    pub(crate) token: Token<B>,
    number: u32,
    ghost numbered: { token.me.0.number ≡ number },
}

impl<B: Kept> Seat<B> {
    ghost use Rattle.gn_turn.specs.Turns.{number_of};

    pub(crate) fn new(token: Token<B>, number: u32) -> Seat<B>
        requires { token.me.0.number ≡ number }
        ensures { result.token ≡ token }
    {
        Seat { token, number }
    }

    pub(crate) fn into_token(self) -> Token<B>
        ensures { result ≡ self.token }
    {
        let Seat { token, number: _ } = self;
        token
    }

    /// The number that the seat's entries bear, counted from 0.
    pub fn number(&self) -> u32
        ensures { result ≡ number_of self.now }
    {
        self.number
    }
}
