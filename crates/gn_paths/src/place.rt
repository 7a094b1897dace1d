// A place in a file.

ghost use Rattle.std.specs.Prelude.{◌≡◌, IfOk};

use crate::text::Text;
use std::alloc::{AllocError, Global};

/// A place in a file. Places are ordered by file, then line, then column.
#[derive(Debug, Drop, PartialEq, Eq, PartialOrd, Ord, Hash)]
pub struct Place {
    /// The bytes of the file's path, or `--args` for the text of that switch.
    pub file: Text,
    /// The line, counted from 1.
    pub line: u32,
    /// The column in bytes, counted from 1.
    pub column: u32,
}

impl Place {
    /// A new place equal to this one.
    pub fn copy(&self, alloc: Global) -> Result<Place, AllocError>
        ensures { IfOk result (λ p. p ≡ self.now) }
    {
        Ok(Place {
            file: self.file.copy(alloc)?,
            line: self.line,
            column: self.column,
        })
    }
}
