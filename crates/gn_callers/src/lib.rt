//! The callers of templates whose bodies run: what stands where they called and in the blocks of their calls, and from where
//! variables are forwarded.
#![tactic(auto)]

mod block;
mod caller;
mod callers;
mod origin;
mod outer_block;
mod selecting;
mod standing;

pub use caller::Caller;
pub use callers::Callers;
pub use origin::Origin;
pub use outer_block::invoker_among;
