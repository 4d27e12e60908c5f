// An index's day: its snapshots and cures, and what they make of the marks.
#![tactic(auto)]

pub mod bounds;
pub mod calls;
pub mod day;
pub mod mark;
pub mod readings;
pub mod report;
pub mod sweep;
pub mod value;
