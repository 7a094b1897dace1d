//! Build arguments: which value a name takes, and which of the names that were given have no effect.
#![tactic(auto)]

mod arguments;
mod built_in;
mod laws;

pub use arguments::{apply, unused};
pub use built_in::is_built_in;
pub use laws::the_last_override_counts;
