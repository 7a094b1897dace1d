//! Lemmas that several crates use and that speak of nothing of this program: on orders, results, lists, tables and texts.
#![tactic(auto)]
