// Names of units.

ghost use Rattle.std.specs.Prelude.{◌≡◌, IfOk};
ghost use Rattle.gn_graph.specs.declared.unit_key.UnitKey.TheVariants.{Setup, Load};

use gn_paths::{Path, Text};
use std::alloc::{AllocError, Global};

/// Names what is executed as a whole.
#[derive(Debug, Drop, PartialEq, Eq, Hash)]
pub enum UnitKey {
    /// The build configuration under a toolchain; the default toolchain has the empty text.
    Setup(Text),
    /// The build file of a directory under a toolchain.
    Load(Path, Text),
}

impl UnitKey {
    /// A new key equal to this one.
    pub fn copy(&self, alloc: Global) -> Result<UnitKey, AllocError>
        ensures { IfOk result (λ unit. unit ≡ self.now) }
    {
        match self {
            UnitKey::Setup(toolchain) => setup_key(alloc, toolchain),
            UnitKey::Load(dir, toolchain) => load_key(alloc, dir, toolchain),
        }
    }
}

pub(crate) fn setup_key(alloc: Global, toolchain: &Text) -> Result<UnitKey, AllocError>
    ensures { IfOk result (λ unit. unit ≡ Setup toolchain.now) }
{
    Ok(UnitKey::Setup(toolchain.copy(alloc)?))
}

pub(crate) fn load_key(alloc: Global, dir: &Path, toolchain: &Text) -> Result<UnitKey, AllocError>
    ensures { IfOk result (λ unit. unit ≡ Load dir.now toolchain.now) }
{
    let dir = dir.copy(alloc)?;
    let toolchain = toolchain.copy(alloc)?;
    Ok(UnitKey::Load(dir, toolchain))
}
