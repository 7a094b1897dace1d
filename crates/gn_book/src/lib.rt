//! The book of loading: which keys are claimed, blocked and filed, and the log of the events that made it so.
#![tactic(auto)]

mod answer;
mod book;
mod chain;
mod closed;
mod event;
mod held;
mod laws;
mod next;
mod reached;
mod ready;
mod roster;
mod status;
mod task;

pub use answer::{Answer, Mentions};
pub use book::{Blocked, Book, Claim};
pub use closed::Closed;
pub use event::{Block, Cause, Event, KeyId};
pub use laws::{claims_stay, logs_are_runs, next_is_by_the_rules, tasks_are_in_order};
pub use next::Next;
