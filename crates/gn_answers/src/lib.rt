//! What is filed for the keys of loading, what there is at a path, and what a unit that is done needs of others.
#![tactic(auto)]

mod answer;
mod file_bytes;
mod keys;
mod needs;
mod part;
mod reading;

pub use answer::{Answer, Executed, FileContent, Filed, find, find_at, unit_of};
pub use file_bytes::FileBytes;
pub use keys::{first_key, home_key, import_key, load_key, read_key, setup_key};
pub use needs::{default_text, is_toolchain, toolchain_name, toolchain_text};
pub use part::Part;
pub use reading::{PerformStop, read_content};
