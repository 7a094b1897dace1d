//! What is known of a build before it is loaded, and the bases over which its files are evaluated.
#![tactic(auto)]

mod bases;
mod keeping;
mod setup;

pub use bases::base_for;
pub use setup::{Given, Known, Setup};
