//! What each step of an evaluation does to its environment: layers of scopes, templates, the invoker, imports. Definitions
//! and laws alone.
#![tactic(auto)]

mod context;
mod declaring_laws;
mod laws;
mod name_laws;
mod surrounding_laws;

pub use context::{Context, OpenBlock};
pub use declaring_laws::{
    calls_declare_in_their_blocks, declared_names_are_not_read,
    declaring_scopes_end_where_they_began, first_assignments_declare, other_scopes_declare_nothing,
    undeclared_names_are_read,
};
pub use laws::{
    bodies_end_where_they_began, given_names_are_found, reads_keep_values,
    scopes_end_where_they_began,
};
pub use name_laws::{
    definitions_keep_what_reads_find, first_unread_name_is_reported, least_conflict_is_shown,
    templates_are_not_found_in_their_bodies,
};
pub use surrounding_laws::{
    bodies_leave_their_surroundings, declaring_scopes_leave_their_surroundings,
    scopes_leave_their_surroundings,
};
