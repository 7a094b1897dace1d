// The names of executions.

ghost use Rattle.std.specs.Prelude.{◌≡◌, IfOk};
ghost use Rattle.gn_items.specs.Names.{name_spelled, setup_name, load_name, import_letter, import_name};

use crate::key::When;
use gn_paths::{Path, Text};
use std::alloc::{AllocError, Global};

// The name of the execution of what the letter says, at a path or at none, under a toolchain.
fn spelled(alloc: Global, letter: u8, toolchain: &Text, path: &[u8]) -> Result<Text, AllocError>
    ensures { IfOk result (λ name. name ≡ name_spelled letter toolchain.now path.now) }
{
    let mut name = vec![in alloc; b'.'; toolchain.len()]?;
    name.push(letter)?;
    name.extend_from_slice(toolchain.as_bytes())?;
    name.extend_from_slice(path)?;
    Ok(Text::from_vec(name))
}

/// The name of the execution of the build configuration under a toolchain. No execution of another key has it.
#[tactic(auto, unfolding(crate::specs::Names::setup_name))]
pub fn setup_name(alloc: Global, toolchain: &Text) -> Result<Text, AllocError>
    ensures { IfOk result (λ name. name ≡ setup_name toolchain.now) }
{
    spelled(alloc, b'S', toolchain, b"")
}

/// The name of the execution of the build file of a directory under a toolchain. No execution of another key has it.
#[tactic(auto, unfolding(crate::specs::Names::load_name))]
pub fn load_name(alloc: Global, directory: &Path, toolchain: &Text) -> Result<Text, AllocError>
    ensures { IfOk result (λ name. name ≡ load_name directory.now toolchain.now) }
{
    spelled(alloc, b'L', toolchain, directory.as_bytes())
}

// The letter of an import.
fn import_letter(when: When) -> u8
    ensures { result ≡ import_letter when }
{
    match when {
        When::Early => b'E',
        When::Usual => b'U',
    }
}

/// The name of the execution of a file that is imported under a toolchain, early or as usual. No execution of another key
/// has it.
#[tactic(auto, unfolding(crate::specs::Names::import_name))]
pub fn import_name(
    alloc: Global,
    when: When,
    toolchain: &Text,
    path: &Path,
) -> Result<Text, AllocError>
    ensures { IfOk result (λ name. name ≡ import_name when toolchain.now path.now) }
{
    spelled(alloc, import_letter(when), toolchain, path.as_bytes())
}
