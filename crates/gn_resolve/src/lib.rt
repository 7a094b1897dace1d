//! What is known of the targets of a build: the records of all of them, dependencies first.
#![tactic(auto)]

mod configs;
mod dones;
mod hard;
mod laws;
mod levels;
mod libraries;
mod making;
mod passes;
mod resolving;
mod shared;
mod table;
mod together;

pub use laws::{
    a_part_of_the_targets_is_enough, each_configuration_applies_once, what_is_made_is_right,
};
pub use making::resolve;
pub use passes::resolve_all;
pub use table::{Entry, Resolved};
