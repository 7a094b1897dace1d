//! Tests of Ninja files: the names in them, and the whole texts of files of toolchains.
#![tactic(auto)]

#[cfg(test)]
mod names;
#[cfg(test)]
mod rows;
#[cfg(test)]
mod toolchains;
