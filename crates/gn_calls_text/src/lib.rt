//! The built-in calls of the language on texts and lists, over values alone.
#![tactic(auto)]

mod arguments;
mod call;
mod conversions;
mod error;
mod filters;
mod growing;
mod laws;
mod lists;
mod patterns;
mod strings;

pub use arguments::{bad_arguments, bytes_of, text_of, texts_of, too_long, wrong_type};
pub use call::{TextCall, call_text};
pub use conversions::{Conversion, Form, convert};
pub use error::CallError;
pub use growing::push_within;
pub use laws::{
    filters_part_a_list, joining_undoes_splitting, patterns_match_by_pieces,
    split_lists_are_the_list, texts_of_strings_are_the_texts,
    trimming_takes_the_white_space_at_the_ends,
};
