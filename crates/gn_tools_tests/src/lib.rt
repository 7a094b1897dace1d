//! Tests of the tools that an item needs and its toolchain lacks.
#![tactic(auto)]

#[cfg(test)]
mod missing;
