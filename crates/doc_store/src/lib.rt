//! Store: operations on documents over any desk at the tables, each of which is one step of the one-thread store at its last entry.
#![tactic(auto)]

mod changing;
mod operation;
mod reading;

pub use operation::perform;
