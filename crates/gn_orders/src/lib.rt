//! Every table of an evaluation stays in the order of its names. Definitions and laws alone.
#![tactic(auto)]

mod laws;

pub use laws::{
    answers_are_in_order, bases_are_in_order, definitions_keep_what_reads_find_at_ends,
    evaluations_stay_in_order, executions_end_in_order, least_conflicts_are_shown,
};
