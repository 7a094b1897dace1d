//! Calls in several threads beside other work, and answers for the places of a list that are dealt out to them.
#![tactic(auto)]

mod beside;
mod dealt;
mod placed;

pub use beside::{call_beside, threads_beside};
pub use dealt::{deal, deal_out};
