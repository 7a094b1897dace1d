// What an evaluation asks.

use gn_paths::Path;

/// What an evaluation asks.
#[derive(Drop)]
pub enum Question {
    /// The content of the file at the path.
    Content(Path),
    /// What an import of the file at the path leaves.
    Import(Path),
}
