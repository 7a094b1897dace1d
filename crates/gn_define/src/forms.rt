// In which forms texts are read.

use gn_substs::Position;

/// A text that is kept as a text.
#[derive(Clone, Copy)]
pub(crate) enum TextForm {
    /// Any text.
    Plain,
    /// A library: a path where it holds a slash, which is resolved, else a name.
    Library,
    /// `gcc`.
    DepsFormat,
}

/// A file that an item names by a substitution text, for each source where it has substitutions of a source.
#[derive(Clone, Copy)]
pub(crate) enum FileRole {
    /// What the item makes, which stands below the build directory.
    Output,
    /// What tells what the item has read, which stands anywhere.
    Depfile,
}

/// A substitution text.
#[derive(Clone, Copy)]
pub(crate) enum SubstForm {
    /// A text of this position, whose paths aren't looked at.
    At(Position),
    /// The name of a file.
    File(FileRole),
}
