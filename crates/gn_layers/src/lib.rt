//! Layers: the names that one scope has, by their numbers; how they are read, assigned, given and laid over one another.
#![tactic(auto)]

mod copied;
mod error;
mod key;
mod laid;
mod layer;
mod layer_gives;
mod layer_merge;
mod layer_reads;
mod layer_templates;
mod name_set;
mod undo;
mod unread;
mod variable;

pub use error::{AssignError, ElementAssignError};
pub use key::NameKey;
pub use laid::{Hides, Laid};
pub use layer::Layer;
pub use name_set::NameSet;
pub use variable::Variable;
