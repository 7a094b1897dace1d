//! Build files that are executed ahead by several threads, over copies of what is filed and the content of their own files, while the
//! thread that asks for them does other work.
#![tactic(auto)]

mod copies;
mod prepared;
mod shared;
mod wanted;
mod with_content;

pub use copies::{Copies, copies_have_no_units};
pub use prepared::prepare_beside;
pub use wanted::Wanted;
pub use with_content::contents_are_included;
