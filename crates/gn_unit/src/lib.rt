//! Units: the execution of a whole file, by the name of what is asked for.
#![tactic(auto)]

mod configuration;
mod defining;
mod ending;
mod evaluation;
mod execution;
mod found;
mod unit;

pub use evaluation::{evaluate, evaluate_again, go_on};
pub use gn_dotfile::Dotfile;
pub use gn_evaluation_base::Base;
pub use gn_first_stage::{UnitEnd, arguments, dotfile};
pub use gn_outermost::Paused;
pub use gn_syntax::Parsed;
pub use unit::{EvalStop, Unit};
