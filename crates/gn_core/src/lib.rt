//! The core of loading: keys, states and events, which events are allowed, and what they come to in any order.
#![tactic(auto)]

mod laws;

pub use laws::{
    claimed_keys_are_wanted, filed_answers_are_meanings, keys_are_claimed_once, limits_agree,
    limits_are_computed, quiet_states_are_whole,
};
