//! The tokens of a build file.
#![tactic(auto)]

mod front;
mod gap;
mod law;
mod mark;
mod number;
mod text;
mod token;
mod tokens;
mod word;

pub use law::{items_one_after_the_other, next_token_is_one, string_is_its_items};
pub use number::integer_value;
pub use token::{Token, TokenError, TokenKind};
pub use tokens::Tokens;
