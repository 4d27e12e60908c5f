// The monitor: opened over a book that it borrows, each call an equation with the model.
#![tactic(auto)]

pub mod calls;
pub mod causes;
pub mod close;
pub mod custody;
pub mod days;
pub mod fixed;
pub mod indices;
pub mod inner;
pub mod listing;
pub mod opening;
pub mod readings;
pub mod report;
pub mod state;
pub mod stocks;
