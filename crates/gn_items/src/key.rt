// What is asked for while a build is loaded.

ghost use Rattle.std.specs.Prelude.{◌≡◌, IfOk};
ghost use Rattle.gn_items.specs.declared.key.Key.TheVariants as variant;

use gn_labels::Label;
use gn_paths::{Path, Text};
use std::alloc::{AllocError, Global};

/// When an import is executed.
#[derive(Clone, Copy, Debug, PartialEq, Eq, Hash)]
pub enum When {
    /// For a build configuration: it sees the built-in variables alone.
    Early,
    /// For build files: it sees the finished build configuration.
    Usual,
}

/// Names what is asked for while a build is loaded. A toolchain is its label, and the empty text for the default one.
#[derive(Debug, Drop, PartialEq, Eq, Hash)]
pub enum Key {
    /// The content of the file at a path.
    Read(Path),
    /// What the file at a path leaves that is imported under a toolchain.
    Import(When, Text, Path),
    /// The build configuration under a toolchain.
    Setup(Text),
    /// The build file of a directory under a toolchain.
    Load(Path, Text),
    /// The record of a target.
    Resolve(Label),
}

fn read_key(alloc: Global, path: &Path) -> Result<Key, AllocError>
    ensures { IfOk result (λ k. k ≡ variant.Read path.now) }
{
    Ok(Key::Read(path.copy(alloc)?))
}

fn import_key(alloc: Global, when: When, toolchain: &Text, path: &Path) -> Result<Key, AllocError>
    ensures { IfOk result (λ k. k ≡ variant.Import when toolchain.now path.now) }
{
    let toolchain = toolchain.copy(alloc)?;
    let path = path.copy(alloc)?;
    Ok(Key::Import(when, toolchain, path))
}

fn setup_key(alloc: Global, toolchain: &Text) -> Result<Key, AllocError>
    ensures { IfOk result (λ k. k ≡ variant.Setup toolchain.now) }
{
    Ok(Key::Setup(toolchain.copy(alloc)?))
}

fn load_key(alloc: Global, directory: &Path, toolchain: &Text) -> Result<Key, AllocError>
    ensures { IfOk result (λ k. k ≡ variant.Load directory.now toolchain.now) }
{
    let directory = directory.copy(alloc)?;
    let toolchain = toolchain.copy(alloc)?;
    Ok(Key::Load(directory, toolchain))
}

fn resolve_key(alloc: Global, label: &Label) -> Result<Key, AllocError>
    ensures { IfOk result (λ k. k ≡ variant.Resolve label.now) }
{
    Ok(Key::Resolve(label.copy(alloc)?))
}

impl Key {
    /// A new key equal to this one.
    pub fn copy(&self, alloc: Global) -> Result<Key, AllocError>
        ensures { IfOk result (λ key. key ≡ self.now) }
    {
        match self {
            Key::Read(path) => read_key(alloc, path),
            Key::Import(when, toolchain, path) => import_key(alloc, *when, toolchain, path),
            Key::Setup(toolchain) => setup_key(alloc, toolchain),
            Key::Load(directory, toolchain) => load_key(alloc, directory, toolchain),
            Key::Resolve(label) => resolve_key(alloc, label),
        }
    }
}

/// The leave to evaluate what a key names. It can't be copied: who has it alone may file the answer.
#[derive(Drop)]
pub struct Claim {
    /// What is to be evaluated.
    pub key: Key,
    /// The seat that has the claim.
    pub seat: u32,
    /// The number of the key in the list of keys.
    pub number: u64,
}

impl Claim {
    /// The claim of a key by a seat. It takes no memory.
    pub fn issue(key: Key, seat: u32, number: u64) -> Claim
        ensures { result ≡ record { key = key; seat = seat; number = number } }
    {
        Claim { key, seat, number }
    }
}
