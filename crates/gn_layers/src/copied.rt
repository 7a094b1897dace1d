// What can be copied where there is memory.

ghost use Rattle.std.specs.Prelude.{◌≡◌, IfOk};

use crate::key::NameKey;
use gn_definitions::DefinitionName;
use gn_paths::Text;
use gn_values::Bindings;
use std::alloc::{AllocError, Global};

/// What can be copied where there is memory.
pub(crate) trait Copied: Drop {
    /// A new value equal to this one.
    fn copied(&self, alloc: Global) -> Result<Self, AllocError>
        ensures { IfOk result (λ r. r ≡ self.now) };
}

impl Copied for DefinitionName {
    fn copied(&self, alloc: Global) -> Result<DefinitionName, AllocError> {
        self.copy(alloc)
    }
}

impl Copied for Bindings {
    fn copied(&self, alloc: Global) -> Result<Bindings, AllocError> {
        self.copy(alloc)
    }
}

impl Copied for Text {
    fn copied(&self, alloc: Global) -> Result<Text, AllocError> {
        self.copy(alloc)
    }
}

impl Copied for NameKey {
    fn copied(&self, _alloc: Global) -> Result<NameKey, AllocError> {
        Ok(NameKey::new(self.number()))
    }
}
