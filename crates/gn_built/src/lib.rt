//! A build that was loaded, and its files.
#![tactic(auto)]

mod built;
mod filed;
mod files;

pub use built::Built;
pub use files::WrittenFiles;
