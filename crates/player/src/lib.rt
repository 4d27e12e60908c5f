// Plays a journal: from the lines of an input to a monitor's answers on an output.
#![tactic(auto)]

mod ask;
mod close;
mod covers;
mod day;
mod declare;
mod lines;
mod notices;
pub mod play;
mod serve;
mod sources;
mod tally;
