//! Files that are put, in the order of their paths.
#![tactic(auto)]

mod laws;
mod out_file;
mod out_files;
mod putting;

pub use laws::{files_of_one_path_keep_their_order, files_stand_in_the_order_of_their_paths};
pub use out_file::OutFile;
pub use out_files::OutFiles;
