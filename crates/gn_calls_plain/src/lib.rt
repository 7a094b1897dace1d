//! Calls that leave the environment as it is: those that need nothing but the values of their arguments and where they
//! stand, and `read_file`.
#![tactic(auto)]

mod contents;
mod outputs;
mod plain;
mod writes;

pub use contents::{Read, Reading, begin_expression, begin_reading, missing, read_bytes};
pub use plain::{Settled, apply_plain, settle};
