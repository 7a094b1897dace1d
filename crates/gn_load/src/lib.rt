//! Loading a build by one seat.
#![tactic(auto)]

mod ahead;
mod current;
mod driver;
mod executed;
mod found;
mod own_file;
mod plain;
mod ready;
mod round;
mod stage;

pub use ahead::load_ahead;
pub use gn_answers::PerformStop;
pub use gn_perform::{Performed, perform};
pub use plain::{LoadEnd, Plain, load_plain};
