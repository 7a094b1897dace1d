// Keys of executions.

ghost use Rattle.std.specs.Prelude.{◌≡◌, [], IfOk};
ghost use Rattle.gn_items.specs.declared.key.Key.TheVariants as variant;
ghost use Rattle.gn_core.specs.Keys.{Unit_of};
ghost use Rattle.gn_closure.specs.Reach.{Setup, Load};
ghost use Rattle.gn_book.specs.Keys.{key_of};
ghost use Rattle.gn_graph.specs.Needs.{home};

use gn_items::{Key, When};
use gn_labels::Named;
use gn_paths::{Path, Text};
use std::alloc::{AllocError, Global};

/// The key of the build configuration under the default toolchain.
pub fn first_key(alloc: Global) -> Key
    ensures { key_of result ≡ Unit_of (Setup []) }
{
    Key::Setup(Text::new(alloc))
}

/// The key of the build configuration under a toolchain.
pub fn setup_key(alloc: Global, toolchain: &Text) -> Result<Key, AllocError>
    ensures { IfOk result (λ key. key ≡ variant.Setup toolchain.now) }
{
    Ok(Key::Setup(toolchain.copy(alloc)?))
}

/// The key of the build file of a directory.
pub fn load_key(alloc: Global, directory: &Path, toolchain: &Text) -> Result<Key, AllocError>
    ensures { IfOk result (λ key. key ≡ variant.Load directory.now toolchain.now) }
{
    let directory = directory.copy(alloc)?;
    let toolchain = toolchain.copy(alloc)?;
    Ok(Key::Load(directory, toolchain))
}

// The directory of the file that defines a toolchain, by the text of its label; a text that is no label stands for the source root.
#[tactic(auto, unfolding(gn_graph::specs::Needs::home, gn_closure::specs::Reach::source_root))]
fn home(alloc: Global, toolchain: &Text) -> Result<Path, AllocError>
    ensures { IfOk result (λ dir. dir ≡ home toolchain.now) }
{
    match Named::of_toolchain(alloc, toolchain.as_bytes())? {
        None => Path::root(alloc),
        Some(Named { dir, name: _ }) => Ok(dir),
    }
}

/// The key of the build file that defines a toolchain: it is executed under the default one.
pub fn home_key(alloc: Global, toolchain: &Text, default: &Text) -> Result<Key, AllocError>
    ensures { IfOk result (λ key. key_of key ≡ Unit_of (Load (home toolchain.now) default.now)) }
{
    let directory = home(alloc, toolchain)?;
    let default = default.copy(alloc)?;
    Ok(Key::Load(directory, default))
}

/// The key of the content of the file at a path.
pub fn read_key(alloc: Global, path: &Path) -> Result<Key, AllocError>
    ensures { IfOk result (λ key. key ≡ variant.Read path.now) }
{
    Ok(Key::Read(path.copy(alloc)?))
}

/// The key of an import of a layer.
pub fn import_key(
    alloc: Global,
    when: When,
    toolchain: &Text,
    path: &Path,
) -> Result<Key, AllocError>
    ensures { IfOk result (λ key. key ≡ variant.Import when toolchain.now path.now) }
{
    let toolchain = toolchain.copy(alloc)?;
    let path = path.copy(alloc)?;
    Ok(Key::Import(when, toolchain, path))
}
