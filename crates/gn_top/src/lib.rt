//! The top call: all that the program does, over sources and a sink that are handed in.
#![tactic(auto)]

mod answer;
mod answered;
mod building;
mod done;
mod faultless;
mod files;
mod first;
mod graph_faults;
mod host;
mod labels;
mod many;
mod ninja;
mod one;
mod texts;

pub use host::{Ended, Host, One};
pub use many::run_gn;
pub use one::run_one;
pub use texts::USAGE;
