//! Service: one message, one answer: its command is read, done over the tables, and its reply told.
#![tactic(auto)]

mod answers;
mod commands;
mod modifying;
mod reading;
mod telling;
mod writing;

pub use answers::{Answered, answer};
pub use telling::no_memory;
