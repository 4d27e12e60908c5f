// Covers: what an entity's stock or cash is good for against a mark, in paise.
#![tactic(auto)]

pub mod cash;
pub mod depository;
pub mod joint;
pub mod mixing;
pub mod source;
