// What a walk does at each kind of item.

ghost use Rattle.std.specs.Prelude.{◌≡◌, Some};
ghost use Rattle.gn_dependencies.specs.Inherited.{links, opens, walks, is_library};
ghost use Rattle.gn_chains.specs.Walking.{is_other_target, meets, goes_through};

use gn_rows::ItemKind;

// Whether targets of the kind are linked.
pub(crate) fn links(kind: Option<ItemKind>) -> bool
    ensures { result ≡ links kind }
{
    match kind {
        Some(ItemKind::Executable) => true,
        Some(ItemKind::SharedLibrary) => true,
        Some(ItemKind::LoadableModule) => true,
        _ => false,
    }
}

// Whether a walk goes through the kind.
pub(crate) fn opens(kind: Option<ItemKind>) -> bool
    ensures { result ≡ opens kind }
{
    match kind {
        Some(ItemKind::Group) => true,
        Some(ItemKind::SourceSet) => true,
        Some(ItemKind::StaticLibrary) => true,
        _ => false,
    }
}

// Whether a walk meets the kind.
pub(crate) fn walks(kind: Option<ItemKind>) -> bool
    ensures { result ≡ walks kind }
{
    match kind {
        Some(ItemKind::SharedLibrary) => true,
        kind => opens(kind),
    }
}

// Whether the kind is inherited.
pub(crate) fn is_library(kind: Option<ItemKind>) -> bool
    ensures { result ≡ is_library kind }
{
    match kind {
        Some(ItemKind::SourceSet) => true,
        Some(ItemKind::StaticLibrary) => true,
        Some(ItemKind::SharedLibrary) => true,
        _ => false,
    }
}

// Whether the kind is one of targets, but for executables.
fn is_other_target(kind: Option<ItemKind>) -> bool
    ensures { result ≡ is_other_target kind }
{
    match kind {
        None => false,
        Some(ItemKind::Executable) => false,
        Some(kind) => kind.is_target(),
    }
}

/// A walk from a target along dependencies.
#[derive(Clone, Copy)]
pub enum Walk {
    /// The walk for libraries: by public and private dependencies, through groups, source sets and static libraries. It meets
    /// these and shared libraries.
    Libraries,
    /// The walk to targets that aren't executables: by all dependencies, through such targets.
    Targets,
}

impl Walk {
    // Whether the walk meets the kind.
    pub(crate) fn meets(self, kind: Option<ItemKind>) -> bool
        ensures { result ≡ meets self kind }
    {
        match self {
            Walk::Libraries => walks(kind),
            Walk::Targets => is_other_target(kind),
        }
    }

    // Whether it goes through the kind.
    pub(crate) fn goes_through(self, kind: Option<ItemKind>) -> bool
        ensures { result ≡ goes_through self kind }
    {
        match self {
            Walk::Libraries => opens(kind),
            Walk::Targets => is_other_target(kind),
        }
    }
}
