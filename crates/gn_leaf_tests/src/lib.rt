//! Tests of the crates below the evaluator: a file a crate, two where it has two subjects.
#![tactic(auto)]

#[cfg(test)]
mod answers;
#[cfg(test)]
mod executions;
#[cfg(test)]
mod faults;
#[cfg(test)]
mod keys;
#[cfg(test)]
mod labels;
#[cfg(test)]
mod ninja_text;
#[cfg(test)]
mod outcome;
#[cfg(test)]
mod outside;
#[cfg(test)]
mod paths;
#[cfg(test)]
mod rows;
#[cfg(test)]
mod substs;
#[cfg(test)]
mod syntax;
#[cfg(test)]
mod text;
#[cfg(test)]
mod tokens;
#[cfg(test)]
mod tree;
#[cfg(test)]
mod turn;
#[cfg(test)]
mod values;
