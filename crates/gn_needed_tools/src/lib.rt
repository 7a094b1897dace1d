//! Which tools an item needs, by its kind and the extensions of its sources, and which of them its toolchain lacks.
#![tactic(auto)]

mod laws;
mod missing;
mod needed;

pub use laws::{missing_tools_ascend, what_is_told_is_needed_and_missing};
pub use missing::missing_tools;
