//! Calls that change the scopes where they stand, or open one in which their block runs; and what is judged of a call
//! before its arguments.
#![tactic(auto)]

mod acceptance;
mod declaring;
mod definer;
mod imports;
mod items;
mod openings;
mod selections;
mod templates;
mod toolchains;

pub use acceptance::{accept, accept_template, is_skipped};
pub use definer::{DefineError, Definer};
pub use imports::{merge_import, resolve_import};
pub use openings::{Opened, Opener, begin_call, end_call};
pub use selections::{forward_variables, mark_not_needed};
pub use templates::define_template;
pub use toolchains::set_default_toolchain;
