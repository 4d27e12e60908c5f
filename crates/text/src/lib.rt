// A line of bytes as words, and a word as a value.
#![tactic(auto)]

pub mod number;
pub mod worded;
pub mod words;
