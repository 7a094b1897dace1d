//! Names and their numbers, marks of texts, quoted texts, and numbers in decimal.
#![tactic(auto)]

mod marks;
mod names;
mod numbers;
mod quotes;

pub use marks::Marks;
pub use names::{Name, Names};
pub use numbers::decimal;
pub use quotes::quote;
