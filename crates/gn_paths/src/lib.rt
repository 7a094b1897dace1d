//! Texts, lists of texts, paths and places.
#![tactic(auto)]

mod components;
mod directories;
mod error;
mod laws;
mod output_directories;
mod parts;
mod path;
mod place;
mod reading;
mod rebasing;
mod resolving;
mod text;
mod texts;

pub use components::{is_path_byte, is_source, is_system, leads_down, stays_there};
pub use directories::directory;
pub use error::{PathError, PathFault};
pub use laws::{
    a_path_means_itself, what_ends_in_no_slash_is_a_directory, what_is_meant_is_in_normal_form,
    what_is_seen_leads_back, what_is_shown_in_the_system_leads_back, what_is_shown_leads_back,
};
pub use output_directories::{gen_directory, obj_directory};
pub use parts::{PathPart, part};
pub use path::Path;
pub use place::Place;
pub use rebasing::rebase;
pub use resolving::{path_meant, resolve};
pub use text::Text;
pub use texts::Texts;
