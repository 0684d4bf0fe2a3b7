//! Store: what operations make of the rows that were selected: what is shown of them, and the edits of a change.
#![tactic(auto)]

mod aims;
mod answers;
mod completing;
mod deeds;
mod edits;
mod outcomes;
mod rows;
mod upserts;

pub use aims::{Aim, Show};
pub use answers::answered;
pub use completing::stored;
pub use deeds::{Deed, Outcome};
pub use outcomes::finish;
