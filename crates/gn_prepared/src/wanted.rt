// Build files whose work is wanted before they are claimed.

use gn_answers::FileContent;
use gn_items::Key;
use gn_paths::Path;

/// A build file whose work is wanted before it is claimed: what there is at the path of its file is known.
#[derive(Drop)]
pub struct Wanted {
    /// The key of the build file.
    pub key: Key,
    /// The path of its file.
    pub path: Path,
    /// What there is at the path.
    pub content: FileContent,
}
