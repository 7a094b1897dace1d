//! What loading whole builds comes to: the build configuration and the build files of every toolchain, and what they import.
#![tactic(auto)]

mod laws;

pub use laws::{
    build_files_are_found, claimed_keys_see_their_toolchain, errors_are_filed,
    errors_are_found_by_units, order_does_not_matter, toolchains_have_homes,
    whole_builds_are_layered,
};
