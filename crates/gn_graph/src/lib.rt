//! Which units are reached and which labels are generated, kept while answers come.
#![tactic(auto)]

mod clause;
mod closure;
mod consequences;
mod counts;
mod default_toolchain;
mod fact;
mod graph;
mod held;
mod hints;
mod home;
mod laws;
mod needs;
mod numbering;
mod parts;
mod rule;
mod taking;
mod target_rules;
mod unit_key;
mod unit_rules;
mod wanted_rules;

pub use fact::Fact;
pub use graph::{Graph, start_graph};
pub use laws::{more_answers_reach_more, order_of_answers_is_free};
pub use needs::{TargetNeeds, ToolchainNeeds, UnitNeeds};
pub use unit_key::UnitKey;
