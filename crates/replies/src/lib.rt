// What the journal's lines are told: why one is malformed, and what a call was answered.
#![tactic(auto)]

pub mod fault;
pub mod told;
