//! What the definition of a template keeps, and what an import leaves.
#![tactic(auto)]

mod import_value;
mod kept;

pub use import_value::{ImportValue, MadeBy};
pub use kept::{Definition, DefinitionName, Definitions, KeptScope};
