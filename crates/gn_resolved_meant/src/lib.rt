//! What comes along dependencies as functions: what is said of a graph where the labels are listed that have dependencies.
#![tactic(auto)]

mod laws;

pub use laws::{
    configurations_are_given, configurations_come_along, faultless_targets_reach_no_cycle,
    hard_targets_are_led_to, hard_targets_come_along, inherited_libraries_are_placed,
    labels_have_one_order, reached_targets_are_closed,
};
