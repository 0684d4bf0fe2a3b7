//! Service: the loop that moves bytes: one connection, and the program over it.
#![tactic(auto)]

mod laws;
mod pipe;
mod program;
mod serve;
mod why;

pub use laws::{a_console_that_cannot_fail_has_no_fault, a_keeper_that_cannot_fail_has_no_fault};
pub use pipe::{Piped, serve_pipe};
pub use program::{Finished, ferret};
pub use serve::{Ended, serve_link};
pub use why::Why;
