//! The calls of the language: what a name calls, and what is judged of a call before its arguments.
#![tactic(auto)]

mod function;
mod laws;
mod rule;

pub use function::{Changing, Function, Named, Opening, Plain, target_kind};
pub use laws::{items_are_called_by_their_kinds, rows_are_of_their_calls};
pub use rule::{Allowed, Rule};
