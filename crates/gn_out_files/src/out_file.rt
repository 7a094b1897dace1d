// A file that is put.

use gn_paths::{Path, Text};

/// A file that is put.
#[derive(Drop)]
pub struct OutFile {
    /// Where it stands.
    pub path: Path,
    /// What it holds.
    pub bytes: Text,
}
