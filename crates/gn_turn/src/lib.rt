//! A ticket lock with memory: callers with seats take turns at one value, and each seat remembers the history of the value that it saw.
#![tactic(auto)]

mod closing;
mod held;
mod held_mut;
mod kept;
mod opening;
mod plays;
mod rule;
mod seat;
mod taking;
mod turn;
mod view;

pub use held::Held;
pub use kept::Kept;
pub use seat::Seat;
pub use turn::Turn;
