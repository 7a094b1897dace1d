//! What a source has read where some of it is read ahead of the seat that loads.
#![tactic(auto)]

mod laws;

pub use laws::{
    all_reads_are_counted, ends_are_those_of_all_reads, first_reads_are_asked,
    reads_ahead_are_asked, what_was_read_is_known,
};
