//! What the rules of a graph forbid a target: labels that name nothing or an item of another kind, dependencies and configurations
//! that aren't visible to it, dependencies for tests alone, and targets that it mustn't reach; and
//! outputs that are made twice.
#![tactic(auto)]

mod breaking;
mod hidden;
mod laws;
mod marks;
mod missing;
mod outputs;
mod reaching;
mod rule;
mod testonly;
mod visible;

pub use hidden::{hidden_configs, hidden_targets};
pub use laws::what_is_told_is_made_again;
pub use marks::Marks;
pub use missing::{foreign_labels, missing_labels};
pub use outputs::{MadeOutput, Outputs, repeated_outputs};
pub use reaching::forbidden_target;
pub use testonly::testonly_deps;
pub use visible::is_visible;
