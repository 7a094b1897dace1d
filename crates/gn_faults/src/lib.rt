//! Faults of a build: their codes, their order, their texts; the stages of a run, and the kinds of files.
#![tactic(auto)]

mod code;
mod fault;
mod file_kind;
mod laws;
mod printing;
mod stage;
mod template;

pub use code::Code;
pub use fault::Fault;
pub use file_kind::FileKind;
pub use laws::{
    codes_have_different_numbers, fault_order_has_no_ties, fault_order_is_strict,
    fault_order_is_transitive,
};
pub use stage::Stage;
