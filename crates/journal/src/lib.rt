// The journal's lines: what each says.
#![tactic(auto)]

pub mod bounds;
pub mod line;
pub mod names;
pub mod reader;
mod taken;
