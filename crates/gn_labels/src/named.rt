// A directory and a name in it.

ghost use Rattle.std.specs.Prelude.{◌≡◌, IfOk};
ghost use Rattle.gn_labels.specs.Labels.{spelling};

use crate::label::spell;
use gn_paths::{Path, Text};
use std::alloc::{AllocError, Global};

/// A directory and a name in it: a label without its toolchain.
#[derive(Debug, Drop, PartialEq, Eq, PartialOrd, Ord, Hash)]
pub struct Named {
    /// The directory, without a final slash; the source root is `//`.
    pub dir: Path,
    /// The name.
    pub name: Text,
}

impl Named {
    /// A new pair equal to this one.
    pub fn copy(&self, alloc: Global) -> Result<Named, AllocError>
        ensures { IfOk result (λ n. n ≡ self.now) }
    {
        let dir = self.dir.copy(alloc)?;
        let name = self.name.copy(alloc)?;
        Ok(Named { dir, name })
    }

    /// The text of the toolchain of this directory and name: `//dir:name`.
    pub fn to_toolchain(&self, alloc: Global) -> Result<Text, AllocError>
        ensures { IfOk result (λ text. text ≡ spelling self.now.dir self.now.name) }
    {
        spell(alloc, &self.dir, &self.name)
    }
}
