//! The built-in calls of the language on paths and labels, over values and the place where a call stands.
#![tactic(auto)]

mod answers;
mod call;
mod given;
mod labels;
mod laws;
mod making;
mod names;
mod place;
mod reading;
mod rebasing;
mod templates;

pub use answers::strings;
pub use call::{PathCall, call_path};
pub use laws::{
    a_label_is_its_parts, a_label_matches_itself, a_list_of_paths_is_told_one_by_one,
    a_source_is_its_path, what_is_rebased_leads_back,
};
pub use place::{Where, out_directory};
pub use reading::read_label;
