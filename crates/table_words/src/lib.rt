//! Store: what tables are called and reply, as definitions; the laws over all their histories; and the desk, at which a seat calls them.
//! `table_store` has the tables themselves.
#![tactic(auto)]

mod call;
mod desk;
mod laws;
mod state;

pub use call::{Edit, TableCall, TableReply};
pub use desk::TableDesk;
pub use laws::{a_number_names_one_space, a_stamp_tells_the_rows, tables_of_a_history_are_sound};
pub use state::{TableState, TablesState};
