//! The outermost block of a file, a statement at a time: its run stops in front of an import whose answer is lacking, and goes on
//! there later.
#![tactic(auto)]

mod halting;
mod imports;
mod paused;
mod written;

pub use halting::{Halt, run_rest};
pub use paused::{Halted, Paused, run_on};
