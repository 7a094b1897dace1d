//! Tests of the book of loading.
#![tactic(auto)]

#[cfg(test)]
mod cycles;
