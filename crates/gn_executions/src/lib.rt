//! What the execution of a whole file means: of the dotfile and of build arguments, of the build configuration, of a build file,
//! and of one that is imported.
#![tactic(auto)]

mod host;
mod laws;

pub use host::HostNames;
pub use laws::{
    build_files_are_meant, built_in_variables_have_their_names, dotfiles_are_their_names,
    executions_are_trees, files_see_their_bases, files_that_stand_alone_end,
    later_files_see_the_build_configuration,
};
