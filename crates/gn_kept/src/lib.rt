//! What is kept for templates: what stands in scopes that are kept, and where definitions stand.
#![tactic(auto)]

mod defaults;
mod definitions;
mod scopes;

pub use defaults::{defaults_in_layers, defaults_in_scopes};
pub use definitions::{is_inside, same_definition, standing_in};
pub use scopes::{behind_value, kept_by_body, kept_value};
