// Position books, and the register that the sparse one and others keep their rows in.
#![tactic(auto)]

pub mod grid;
pub mod list;
pub mod position;
pub mod register;
pub mod row;
