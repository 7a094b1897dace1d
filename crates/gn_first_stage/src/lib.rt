//! Files that ask for nothing: the dotfile, and build arguments.
#![tactic(auto)]

mod alone;
mod first_stage;

pub use alone::UnitEnd;
pub use first_stage::{arguments, dotfile};
