//! Which texts of a toolchain's tools a target uses, and what is told where one of them is no path.
#![tactic(auto)]

mod laws;
mod least;
mod texts;
mod used;

pub use laws::{nothing_is_told_exactly_where_nothing_is_left_out, what_is_told_is_the_least};
pub use used::wrong_text;
