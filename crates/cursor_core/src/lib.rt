//! History: cursors, which give what they were started with in batches, and end when nobody asks for ten minutes.
#![tactic(auto)]

mod asked;
mod call;
mod cursors;
mod laws;
mod live;
mod rest;
mod state;

pub use call::{CursorCall, CursorReply, Mark};
pub use cursors::Cursors;
pub use laws::{batches_are_a_prefix, cursors_of_a_history_are_sound};
pub use state::{Cursor, CursorsState};
