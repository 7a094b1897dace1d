// The bytes of a file.

ghost use Rattle.std.specs.Prelude.{◌≡◌, ◌≤◌, IfOk, length};
ghost use Rattle.gn_value_model.specs.Limits.{max_bytes};

use gn_paths::Text;
use std::alloc::{AllocError, Global};
use std::sync::Arc;

/// The bytes of a file that was read, at most 16,777,216.
#[derive(Drop)]
pub struct FileBytes {
    /// The bytes.
    pub bytes: Text,

    ghost small: { length bytes ≤ max_bytes },
}

impl FileBytes {
    /// The bytes of a file.
    pub(crate) fn new(alloc: Global, bytes: Vec<u8>) -> Result<Arc<FileBytes>, AllocError>
        requires { length bytes.items ≤ max_bytes }
        ensures { IfOk result (λ file. file.value.bytes ≡ bytes.items) }
    {
        let file = FileBytes {
            bytes: Text::from_vec(bytes),
        };
        Ok(Arc::new(alloc, file)?)
    }
}
