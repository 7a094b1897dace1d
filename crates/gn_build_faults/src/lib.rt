//! The fault that is told of the targets which a build generates.
#![tactic(auto)]

mod examined;
mod fault;
mod first;
mod foreseen;
mod labels;
mod laws;
mod links;
mod made;
mod order;
mod outputs;
mod paths;
mod reaching;
mod settling;
mod shared;
mod told;
mod tools;
mod whole;

pub use labels::{JudgedTargets, fault_of_labels, judge_generated};
pub use laws::{faultless_targets_can_be_resolved, targets_have_their_dependencies};
pub use made::made_by;
pub use reaching::targets_of;
