//! What is asked for while a build is loaded, the items that an execution defines, and what it leaves.
#![tactic(auto)]

mod declaration;
mod default_toolchain;
mod item;
mod key;
mod laws;
mod names;
mod outcome;
mod places;
mod question;
mod tool;
mod tools;
mod written;

pub use declaration::Declaration;
pub use default_toolchain::DefaultToolchain;
pub use gn_rows::ItemKind;
pub use item::Item;
pub use key::{Claim, Key, When};
pub use laws::executions_of_different_keys_differ;
pub use names::{import_name, load_name, setup_name};
pub use outcome::Outcome;
pub use question::Question;
pub use tool::Tool;
pub use tools::Tools;
pub use written::Written;
