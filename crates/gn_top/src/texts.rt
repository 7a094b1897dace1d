// The texts that are no fault's.

/// The words have no form.
pub const USAGE: &str = "usage: gn gen|ls|desc|refs|path|check|args|sample ...\n";

/// What stands before the name of a build argument that was given to no effect.
pub const WARNING: &str = "WARNING: The build argument \"";

/// What stands behind the name of such an argument.
pub const HAS_NO_EFFECT: &str = "\" has no effect.";

/// What stands before the path of a file whose read has failed.
pub const CANNOT_READ: &str = "gn: cannot read ";

/// What stands before the number of targets that were generated.
pub const DONE: &str = "Done. Made ";

/// What stands between that number and the number of build files.
pub const TARGETS_FROM: &str = " targets from ";

/// What stands behind the number of build files.
pub const FILES: &str = " files\n";
