// What everything is called: kinds, underlyings, limits, marks, sides, commands, refusals and bounds.
#![tactic(auto)]

pub mod bounds;
pub mod command;
pub mod kind;
pub mod limits;
pub mod mark;
pub mod refusal;
