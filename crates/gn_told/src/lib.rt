//! The library over some part of what is filed.
#![tactic(auto)]

mod told;

pub use told::{Needed, Told, has_no_value};
