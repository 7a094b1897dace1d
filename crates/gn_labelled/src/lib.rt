//! Items by their labels: an index over the items that the executions of a build define, and the graph that they are.
#![tactic(auto)]

mod graph;
mod handed_on;
mod index;
mod laws;
mod lent_graph;
mod target_graph;

pub use graph::ItemGraph;
pub use handed_on::{HandedOn, NoRecords};
pub use index::ItemIndex;
pub use laws::{
    each_repetition_is_told, the_first_item_is_found, the_order_of_items_does_not_matter,
};
pub use lent_graph::LentGraph;
pub use target_graph::TargetGraph;
