//! What the names of a dotfile say.
#![tactic(auto)]

mod names;
mod said;

pub use names::{DotfileNames, NameStop, names_of};
pub use said::Dotfile;
