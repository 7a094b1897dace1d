//! The grammar of a build file: which tree bytes spell, as a file and as one expression, and the first error where they spell none.
#![tactic(auto)]

mod fault;
mod law;

pub use fault::SyntaxFault;
pub use law::{
    each_expression_has_one_answer, each_file_has_one_answer, machine_is_right,
    nestings_are_of_the_tree, pieces_stand_in_the_line, trees_are_shallow,
};
