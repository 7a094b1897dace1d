//! Scopes: the layers that are open, by the numbers of their names and by the names that stand in them.
#![tactic(auto)]

mod copies;
mod error;
mod innermost;
mod named_copies;
mod named_gives;
mod named_reads;
mod named_scopes;
mod named_templates;
mod scopes;
mod scopes_templates;

pub use copies::{copied_but, copy_entries};
pub use error::ScopeError;
pub use named_scopes::NamedScopes;
pub use scopes::Scopes;
