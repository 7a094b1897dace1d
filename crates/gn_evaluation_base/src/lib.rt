//! What the evaluation of a whole file sees besides what it asks: the built-in variables and what stands beneath it; and the faults of a whole file.
#![tactic(auto)]

mod base;
mod built_in;
mod faults;

pub use base::{Base, one_scope};
pub use built_in::built_in_scope;
pub use faults::{syntax_fault_in, whole_file_fault_in};
