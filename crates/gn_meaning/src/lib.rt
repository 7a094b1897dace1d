//! What a block of the language means.
#![tactic(auto)]

mod block_laws;
mod item_laws;
mod laws;

pub use block_laws::{
    bodies_never_call_their_templates, evaluations_leave_their_surroundings,
    lists_are_the_values_of_their_items,
};
pub use item_laws::items_are_their_blocks;
pub use laws::{
    evaluations_are_trees, evaluations_depend_on_what_they_ask, evaluations_stop_at_answers,
    more_answers_keep_evaluations,
};
