// Whole lists of calls on a monitor, and the laws that hold of every such list.
#![tactic(auto)]

pub mod replay;
pub mod request;
