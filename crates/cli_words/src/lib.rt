//! Outside: the words of the command line, read by `clap`.
#![tactic(auto)]

mod laws;
mod reading;
mod words;

pub use laws::pipe_is_the_one_command;
pub use reading::read;
pub use words::{Words, WordsRefused};
