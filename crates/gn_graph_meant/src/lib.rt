//! The faults of the targets of a graph as functions: what is told where the labels are listed that have dependencies.
#![tactic(auto)]

mod laws;

pub use laws::{
    the_first_forbidden_target_is_found, the_labels_of_items_are_enough, the_least_fault_is_told,
    the_shortest_path_is_found, there_is_one_least_fault,
};
