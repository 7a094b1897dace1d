//! Labels, their order, and patterns of labels.
#![tactic(auto)]

mod bytes;
mod error;
mod key;
mod label;
mod label_reading;
mod laws;
mod name;
mod named;
mod pattern;
mod pattern_reading;
mod toolchain;
mod toolchain_name;

pub use error::{LabelError, LabelFault, PatternError, PatternFault};
pub use key::LabelKey;
pub use label::{Label, compare_toolchains};
pub use label_reading::label_meant;
pub use laws::{
    a_bad_form_is_a_bad_label, a_pattern_without_a_star_is_a_label,
    a_star_in_the_toolchain_alone_is_a_bad_pattern, a_toolchain_spells_its_name,
    keys_are_in_label_order, label_order_has_no_ties, label_order_is_strict,
    label_order_is_transitive, what_is_read_is_a_label,
};
pub use name::is_name;
pub use named::Named;
pub use pattern::{Extent, Pattern};
pub use pattern_reading::pattern_meant;
