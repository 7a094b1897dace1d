//! The faults of the files of a build: build arguments that are declared twice, a default toolchain that isn't defined, files that are
//! written twice or made by a target, and build files that are imported.
#![tactic(auto)]

mod arguments;
mod defaults;
mod facts;
mod fault;
mod imports;
mod least;
mod uses;
mod writes;

pub use arguments::repeated_fault;
pub use facts::{FileFacts, FilesWritten};
pub use fault::file_fault;
