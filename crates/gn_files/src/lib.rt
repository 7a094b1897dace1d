//! The Ninja files of a build: build.ninja, those of its toolchains and those of its targets.
#![tactic(auto)]

mod build;
mod files;
mod gathering;
mod paths;
mod pieces;
mod project;
mod pushing;
mod root;
mod target_files;
mod toolchains;
mod used;

pub use build::ninja_files;
pub use gn_out_files::OutFile;
