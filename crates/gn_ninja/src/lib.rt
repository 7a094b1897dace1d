//! Ninja files: those of targets and toolchains, and build.ninja.
#![tactic(auto)]

mod blocks;
mod claims;
mod laws;
mod lines;
mod parts;
mod phony;
mod root;
mod taken;
mod targets;
mod toolchains;
mod values;

pub use claims::Claimant;
pub use laws::{
    each_name_stands_once, no_name_hides_an_output, what_is_made_is_read_back,
    what_stands_in_a_part_is_read_back,
};
pub use root::{Pool, Root, append_root};
pub use targets::append_target;
pub use toolchains::append_toolchain;
