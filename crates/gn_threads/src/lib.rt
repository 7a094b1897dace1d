//! What is said of a list by the places of its items, and lemmas on the answers that several threads make for places, and on the
//! closures that they call.
#![tactic(auto)]
