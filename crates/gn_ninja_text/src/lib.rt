//! The escapes of Ninja files, and words of a shell.
#![tactic(auto)]

mod escapes;
mod laws;
mod marks;
mod words;

pub use escapes::{append_doubled, escape_path, escape_value};
pub use laws::values_without_variables_are_their_bytes;
pub use words::shell_word;
