//! The variables of items as rows: for each kind of item which variables its block can set, of which types, and what the
//! kind demands of them.
#![tactic(auto)]

mod kinds;
mod laws;
mod others;
mod row;
mod tables;
mod targets;
mod variable;

pub use kinds::{ItemKind, ToolName};
pub use laws::{
    kinds_are_found_by_their_names, names_of_a_table_differ, tools_are_found_by_their_names,
    what_is_demanded_is_looked_at,
};
pub use row::{Demand, Row, RowType, Rule, StringKind};
pub use tables::{demands_of, rows_of};
pub use variable::Variable;
