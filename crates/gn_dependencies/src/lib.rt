//! Dependencies of targets: their paths and cycles, what comes along them, and the order of the libraries that a linked target
//! inherits.
#![tactic(auto)]

mod laws;

pub use laws::{
    dependents_stand_first, each_label_stands_once, each_path_is_listed, first_places_count,
    inherited_libraries_are_local, no_cycle_is_bounded_paths, orders_have_the_walked,
    records_are_local, records_come_from_dependencies, there_is_one_order, there_is_one_record,
};
