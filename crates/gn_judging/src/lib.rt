//! What all comes to that was loaded: the error of the build, or its parts.
#![tactic(auto)]

mod causes;
mod executions;
mod generated;
mod judging;
mod limits;
mod ordered;

pub use judging::{Judged, Parts, judge, too_large};
pub use limits::asked_of;
