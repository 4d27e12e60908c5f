// What a monitor is: the data that it keeps here, its rules and the laws over every run in specs/.
#![tactic(auto)]

pub mod parts;
