//! Which units are reached and which labels are generated: the least set under the rules, and the same as a list that is
//! computed.
#![tactic(auto)]

mod laws;

pub use laws::{computed_set_is_least, least_sets_are_computed, limits_are_exact};
