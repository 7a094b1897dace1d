//! The fault that is told of the toolchains which targets use: pools that their tools name and that aren't there or are no pools, and
//! names that two of them have.
#![tactic(auto)]

mod fault;
mod laws;
mod names;
mod pools;
mod told;
mod used;

pub use fault::{ToolchainFault, toolchain_fault};
pub use laws::{targets_use_toolchains, the_first_fault_is_told, the_first_pool_is_told};
