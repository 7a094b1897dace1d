//! What is known of the outputs of an item that is defined, before any tool is looked at.
#![tactic(auto)]

mod laws;

pub use laws::known_outputs_stand_below_the_build_directory;
