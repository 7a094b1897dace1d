//! The shortest path of dependencies between two labels, the shortest cycle on which a target lies, and targets that reach no
//! cycle.
#![tactic(auto)]

mod laws;
mod search;
mod settling;
mod shortest;
mod way;

pub use laws::{settled_targets_lie_on_no_cycle, there_is_one_shortest_path};
pub use settling::settled;
pub use shortest::{shortest_cycle, shortest_path};
