//! What the imports of a project leave, to which faults they lead, and what is asked on the way.
#![tactic(auto)]

mod laws;

pub use laws::{
    answers_are_fixed, links_lead_to_causes, questions_lead_to_questions, rounds_come_to_rest,
    runs_end_as_in_the_last_round,
};
