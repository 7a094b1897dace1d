//! The words of a command line: which command they name, what it asks for, and what the switches say.
#![tactic(auto)]

mod laws;
mod switches;
mod words;

pub use laws::arguments_are_short;
pub use switches::Options;
pub use words::{Command, Line, read_words};
