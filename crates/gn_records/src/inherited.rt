// What a target takes from the libraries that it inherits.

use gn_paths::Texts;

/// What a target takes from the libraries that it inherits, each list in their order. Paths are as seen from the build directory.
#[derive(Drop)]
pub struct Inherited {
    /// The objects of source sets.
    pub set_objects: Texts,
    /// The done files of source sets.
    pub set_dones: Texts,
    /// The first outputs of static libraries.
    pub statics: Texts,
    /// The done files of shared libraries.
    pub shared: Texts,
    /// What is linked of shared libraries: their `link_output`, or else their first output.
    pub solibs: Texts,
    /// The libraries of source sets and static libraries and of their configurations.
    pub libs: Texts,
    /// The directories of libraries of source sets and static libraries and of their configurations.
    pub lib_dirs: Texts,
}
