// What entities hold in an underlying, in futures: readings of an entity, interest of the market, and what a reading lacks.
#![tactic(auto)]

pub mod chain;
pub mod entity;
pub mod making;
pub mod market;
pub mod missing;
pub mod sheet;
