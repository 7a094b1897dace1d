//! What is known of a target when its Ninja file is written, and what the build lines of that file make.
#![tactic(auto)]

mod commands;
mod laws;
mod lists;
mod made;
mod names;
mod outputs;
mod record_lists;
mod records;
mod sources;
mod target_names;
mod waiting;

pub use commands::{action_command, action_description};
pub use laws::{different_texts_have_different_names, what_is_written_leads_back};
pub use lists::{behind_switch, each_once};
pub use made::made_by;
pub use names::{action_rule_name, mangled, pool_name, rule_prefix, tool_rule};
pub use outputs::{OutputNames, given_for, name_text, push_meant, tool_outputs, uses};
pub use record_lists::{CopiedFiles, Runs, Units};
pub use records::{
    Action, ActionRule, CompileFlags, Compiled, Copied, CopyTarget, Directories, Dones, Group,
    Join, LabelTexts, LinkFlags, OutputTexts, OwnSources, Run, Step, Tool, Unit, Written,
};
pub use sources::{SourceUse, all_seen, use_of};
pub use target_names::{output_extension, output_name, target_file};
pub use waiting::{is_missing, rest};
