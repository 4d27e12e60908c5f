// The opening of a journal: what is declared before the monitor is open.
#![tactic(auto)]

pub mod bounds;
pub mod opened;
mod roster;
pub mod setup;
