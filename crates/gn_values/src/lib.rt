//! The values of the language: what they are, their operators, their text, and their limits.
#![tactic(auto)]

mod bindings;
mod comparison;
mod error;
mod integers;
mod limits;
mod operators;
mod shared;
mod value;

pub use bindings::{Bindings, Overrides};
pub use comparison::Compare;
pub use error::{ElementError, ValueError};
pub use limits::{MAX_BYTES, MAX_DEPTH, MAX_ITEMS, append_text};
pub use operators::{add, compare, index, subtract};
pub use value::{Entries, Entry, Items, Value, print_text};
