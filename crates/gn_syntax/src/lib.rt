//! The parser of a build file, and of one expression: the tree that bytes spell, or their first error.
#![tactic(auto)]

mod error;
mod expansion;
mod file;
mod grammar;
mod law;
mod lookahead;
mod operator;
mod parser;
mod pieces;
mod place;

pub use error::SyntaxError;
pub use file::{Parsed, parse, parse_expr};
pub use law::readings_are_right;
pub use place::place_of;
