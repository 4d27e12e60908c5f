// The arithmetic of a stock: its limit, when a ban begins and ends, what a violation is and what it costs.
#![tactic(auto)]

pub mod ban;
pub mod bounds;
pub mod charge;
mod fraction;
pub mod limit;
pub mod violation;
