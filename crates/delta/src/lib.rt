// Delta sources: how much of a future a contract counts for, in ten-thousandths of a unit.
#![tactic(auto)]

pub mod bounds;
pub mod mixing;
pub mod notional;
pub mod published;
pub mod quoted;
pub mod settlement;
pub mod source;
