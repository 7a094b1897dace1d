//! What the steps of an evaluation share that ask nothing: how a step ends, its faults, the arguments of a call, and where
//! it stands.
#![tactic(auto)]

mod arguments;
mod faults;
mod places;
mod standing;
mod step;

pub use arguments::{argument_position, begins_with_invoker, evaluated, refuse};
pub use faults::{no_effect, no_effect_in, refused, refused_element, wrong, wrong_with};
pub use places::{path_code, place_here};
pub use standing::{context_here, where_here};
pub use step::StepEnd;
