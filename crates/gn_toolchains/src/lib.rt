//! The toolchains of a build: the items that define them, and what never changes for the targets of each.
#![tactic(auto)]

mod defined;
mod frame;
mod frames;
mod surroundings;

pub use defined::tools_of;
pub use frames::Frames;
pub use surroundings::Surroundings;
