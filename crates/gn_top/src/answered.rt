// What a run is to say, or why there is nothing to say.
use gn_out_files::OutFiles;
use gn_paths::Path;
use std::alloc::AllocError;

/// An answer, an error in the build or the usage line.
#[derive(Drop)]
pub struct Answered {
    /// The exit status: 0 for an answer, 1 for an error in the build, 2 for the usage line.
    pub status: u8,
    /// What is said.
    pub text: Vec<u8>,
    /// The files that are put before.
    pub files: OutFiles,
    /// The number of build files that were loaded.
    pub units: u64,
}

/// Why there is nothing to say.
#[derive(Drop)]
pub enum RunStop {
    /// The read of the file at this path has failed.
    CannotRead(Path),
    /// Want of memory.
    Memory,
}

impl From<AllocError> for RunStop {
    ghost use Rattle.std.specs.Prelude.{◌≡◌};
    ghost use Rattle.gn_top.specs.declared.answered.RunStop.TheVariants.{Memory};

    ghost from_gives = { λ _ e. e ≡ Memory };

    fn from(_: AllocError) -> Self {
        RunStop::Memory
    }
}
