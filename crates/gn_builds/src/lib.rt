//! What loading builds by one seat comes to: which work over a part of what is filed is right, the steps of loading, and what is known once it has come to rest.
#![tactic(auto)]

mod laws;

pub use laws::{
    closed_imports_are_all, files_were_read, links_lead_to_the_fault, only_what_is_asked_is_loaded,
    rest_is_the_build, work_over_a_part_is_right,
};
