//! What the work on one claim comes to outside the book, and what is kept of an execution that needs another answer first.
#![tactic(auto)]

mod evaluating;
mod kept;
mod work;

pub use kept::{Kept, KeyRest, Rest, asked_until, store, take_rest};
pub use work::{Performed, load_answer, perform};
