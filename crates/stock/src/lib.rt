// A stock's close: what becomes of its ban and of the base, who violates, and what that costs.
#![tactic(auto)]

pub mod base;
pub mod close;
pub mod turn;
pub mod violation;
