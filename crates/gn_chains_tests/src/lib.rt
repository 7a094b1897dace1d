//! Tests of what comes along dependencies, of cycles, of the rules of a graph, of the faults of its targets and of items that are found by
//! their labels, over small graphs that texts describe and over large ones.
#![tactic(auto)]

#[cfg(test)]
mod chains;
#[cfg(test)]
mod defining;
#[cfg(test)]
mod faults;
#[cfg(test)]
mod labelled;
#[cfg(test)]
mod lines;
mod makers;
#[cfg(test)]
mod outputs;
#[cfg(test)]
mod reading;
#[cfg(test)]
mod rules;
#[cfg(test)]
mod sizes;
mod tree;

pub use makers::Makers;
pub use tree::{Item, Record, Tree};
