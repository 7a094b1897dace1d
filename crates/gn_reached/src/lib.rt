//! The targets that dependencies lead to.
#![tactic(auto)]

mod walking;

pub use walking::reached;
