//! Laws of the Ninja files of a whole build, each as a call that does nothing and whose contract is the law.
#![tactic(auto)]

mod laws;

pub use laws::{each_output_is_made_once, files_are_printed_of_their_blocks};
