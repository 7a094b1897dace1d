// What `write_file` writes.

use gn_paths::{Path, Place, Text};

/// A file that an execution writes.
#[derive(Drop)]
pub struct Written {
    /// The path of the file.
    pub path: Path,
    /// What it holds.
    pub bytes: Text,
    /// Where the name of the call stands that writes it.
    pub place: Place,
}
