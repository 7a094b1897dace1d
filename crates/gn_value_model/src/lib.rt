//! Values as contracts see them, their limits and when they are equal: definitions, and lemmas on them.
#![tactic(auto)]
