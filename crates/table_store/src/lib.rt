//! Store: the tables: rows in memory, written through to a keeper before a change is told.
//! `table_words` says what each call means; `shared_books` has desks over these tables.
#![tactic(auto)]

mod changes;
mod creating;
mod dropping;
mod editing;
mod finding;
mod inserting;
mod kept_rows;
mod listing;
mod live;
mod load_laws;
mod load_refused;
mod loading;
mod reading;
mod tables;

pub use live::{Live, LiveTables};
pub use load_laws::{
    kept_tables_are_loaded_as_one_state, loaded_tables_have_no_fault, there_is_one_first_fault,
};
pub use load_refused::LoadRefused;
pub use tables::{Held, Tables};
