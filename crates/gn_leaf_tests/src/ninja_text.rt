// Each call once, with ample memory. `checks/escapes.sh` has a shell and Ninja read the rows back.

use crate::rows::{field, table};
use gn_ninja_text::{escape_path, escape_value, shell_word};
use std::alloc::{AllocError, Global};

/// Paths as they are escaped.
pub(crate) const PATHS: &str = table! {
    "../a b:c.txt", "../a$ b$:c.txt";
    "", "";
    "$a", "$$a";
    "x\"y|#", "x\"y|#";
};

/// Whether the path of a row is escaped so.
pub(crate) fn is_escaped_path(alloc: Global, row: &str) -> Result<bool, AllocError> {
    let text = escape_path(alloc, field(row, 0).as_bytes())?;
    Ok(text.as_bytes() == field(row, 1).as_bytes())
}

/// Values as they are escaped.
pub(crate) const VALUES: &str = table! {
    "  a b:c", "$  a b:c";
    "", "";
    "a$b ", "a$$b ";
};

/// Whether the value of a row is escaped so.
pub(crate) fn is_escaped_value(alloc: Global, row: &str) -> Result<bool, AllocError> {
    let text = escape_value(alloc, field(row, 0).as_bytes())?;
    Ok(text.as_bytes() == field(row, 1).as_bytes())
}

/// Words as a shell reads them.
pub(crate) const WORDS: &str = table! {
    "aZ0_./=+,@%^-:", "aZ0_./=+,@%^-:";
    "", "\"\"";
    "my s.py", "\"my s.py\"";
    "\\\"$`", "\"\\\\\\\"\\$\\`\"";
    "a\nb", "\"a\nb\"";
};

/// Whether the word of a row is quoted so.
pub(crate) fn is_shell_word(alloc: Global, row: &str) -> Result<bool, AllocError> {
    let text = shell_word(alloc, field(row, 0).as_bytes())?;
    Ok(text.as_bytes() == field(row, 1).as_bytes())
}
