//! The evaluator: what a block of the language does.
#![tactic(auto)]

mod blocks;
mod calls;
mod changing;
mod ending;
mod expressions;
mod level;
mod library;
mod operations;
mod reading;
mod special_calls;
mod statements;

pub use blocks::{
    end_configuration, end_file, run_block, run_configuration_file, run_file, run_import_file,
    run_outermost,
};
pub use ending::EvalEnd;
pub use gn_calls_scopes::{DefineError, Definer};
pub use library::{Found, Imported, LibStop, Library};
