//! Store: a table, which is rows with distinct keys in the order of their places, and what of it meets a condition.
#![tactic(auto)]

mod body;
mod listed;
mod row;
mod selecting;
mod shared;
mod table;

pub use listed::{Listed, Placed};
pub use row::Row;
pub use shared::SharedJson;
pub use table::Table;
