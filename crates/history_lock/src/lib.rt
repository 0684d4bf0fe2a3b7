//! History: a lock whose calls stand in one list, of which each seat has seen a beginning.
#![tactic(auto)]

mod closed;
mod entry;
mod history;
mod laws;
mod object;
mod refused;
mod rule;
mod seat;
mod solo;
mod steps;
mod view;

pub use closed::{Closed, Past};
pub use entry::{Entry, Who};
pub use history::History;
pub use laws::legal_calls_might_be_made;
pub use object::Object;
pub use refused::NoMemory;
pub use seat::{Seat, Turn};
pub use solo::Solo;
pub use view::View;
