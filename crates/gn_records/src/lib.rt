//! What is known of a target when its Ninja file is written, made from the item of the target and from what is known around it.
#![tactic(auto)]

mod actions;
mod alone;
mod bound;
mod compiled;
mod context;
mod copies;
mod done;
mod expanding;
mod exports;
mod flags;
mod further;
mod groups;
mod inherited;
mod joining;
mod keeping;
mod laws;
mod linking;
mod output;
mod outputs;
mod paths;
mod records;
mod rules;
mod runs;
mod sources;
mod stamps;
mod texts;
mod tools;

pub use alone::made;
pub use bound::bound_names;
pub use context::{BoundNames, Context};
pub use expanding::{Expansion, ToolSource, expanded_by, source_of};
pub use further::outputs_of;
pub use inherited::Inherited;
pub use laws::{
    exports_need_no_dependency, further_configurations_stand_behind, objects_need_no_dependency,
    outputs_need_no_dependency, what_is_made_needs_no_dependency,
};
pub use output::{
    Output, OwnDirectories, names_for, output_of, own_tool, substs_of_tool, tool_of_kind,
};
pub use outputs::{for_none, for_source};
pub use records::{Exports, Record, record_of};
pub use texts::dones;
pub use tools::{tool_of, tools_of};
