//! The faults of the targets of a graph: labels that name nothing or an item of another kind, cycles, what isn't visible, what is
//! for tests alone, and what mustn't be reached. They are told target by target, in their order.
#![tactic(auto)]

mod adding;
mod faults;
mod kinds;
mod laws;
mod least;
mod order;
mod places;
mod telling;

pub use faults::label_faults;
pub use laws::{the_first_fault_is_the_least, there_is_one_list_of_faults};
pub use least::least_fault;
pub use order::put_in_order;
pub use places::Places;
