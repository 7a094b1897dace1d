// The directory of the file that defines a toolchain.

ghost use Rattle.std.specs.Prelude.{◌≡◌, IfOk};
ghost use Rattle.gn_graph.specs.Needs.{home};

use gn_labels::Named;
use gn_paths::{Path, Text};
use std::alloc::{AllocError, Global};

/// The directory of the file that defines a toolchain, by the text of its label; a text that is no label stands for the source root.
#[tactic(auto, unfolding(crate::specs::Needs::home, gn_closure::specs::Reach::source_root))]
pub(crate) fn home(alloc: Global, toolchain: &Text) -> Result<Path, AllocError>
    ensures { IfOk result (λ dir. dir ≡ home toolchain.now) }
{
    match Named::of_toolchain(alloc, toolchain.as_bytes())? {
        None => Path::root(alloc),
        Some(Named { dir, name: _ }) => Ok(dir),
    }
}
