// The kinds of files.

/// As what a file is evaluated.
#[derive(Clone, Copy, Debug, PartialEq, Eq)]
pub enum FileKind {
    /// A build file, which may define items.
    BuildFile,
    /// A file that is imported.
    Import,
    /// The build configuration, which every other file of the build sees once it is done.
    BuildConfiguration,
    /// The file that says where the build is: the dotfile.
    Dotfile,
    /// The build arguments of a command line, or of the file that keeps them.
    Arguments,
}
