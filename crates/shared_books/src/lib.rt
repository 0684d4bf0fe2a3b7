//! Store: desks at which one seat calls the tables, over a history with one seat or with many.
#![tactic(auto)]

mod shared_tables;
mod solo_tables;

pub use shared_tables::SharedTables;
pub use solo_tables::SoloTables;
