//! The environment of an evaluation: its scopes, what stands behind them, templates, the invoker, and what imports leave.
#![tactic(auto)]

mod bringing;
mod declaring;
mod env;
mod forwarding;
mod imports;
mod invoker;
mod outer_invoker;
mod templates;

pub use declaring::Argument;
pub use env::Env;
pub use forwarding::ForwardError;
pub use gn_callers::Origin;
pub use imports::MergeError;
pub use templates::GiveError;
