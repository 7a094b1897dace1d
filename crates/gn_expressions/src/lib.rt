//! The steps of expressions and assignments: what is done once their parts have values.
#![tactic(auto)]

mod assignments;
mod calls;
mod collections;
mod names;
mod operators;
mod strings;

pub use assignments::{assign_element, assign_name};
pub use calls::value_of_call;
pub use collections::{add_value, end_scope, make_list};
pub use names::{
    has_element, has_entry, has_value, read_base, read_element, read_entry, read_name,
};
pub use operators::{boolean, negate, operate, truth};
pub use strings::expand;
