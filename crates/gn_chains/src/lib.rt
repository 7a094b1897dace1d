//! What comes along dependencies: the configurations that apply to a target and those that it hands on, the libraries that it
//! inherits, and what walks from it meet.
#![tactic(auto)]

mod candidates;
mod configurations;
mod counts;
mod edges;
mod firsts;
mod graph;
mod inheriting;
mod kinds;
mod order;
mod reached;
mod walk;

pub use configurations::{applied, pushed, pushed_public};
pub use firsts::Firsts;
pub use graph::{Graph, Node};
pub use inheriting::inherited;
pub use kinds::Walk;
pub use walk::walked;
