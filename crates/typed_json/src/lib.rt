//! Values: documents as rows of typed JSON, which a person can read and which give the document back.
//! `jsonb_contain` has the JSON, its text, and conditions on it.
#![tactic(auto)]

mod adding;
mod laws;
mod leaves;
mod levels;
mod plain_json;
mod reading;
mod refused;
mod schemas;
mod tags;
mod writing;

pub use laws::{
    a_row_has_each_field, a_row_is_read_again, a_row_is_read_as_its_document,
    a_row_tells_its_document,
};
pub use plain_json::plain;
pub use reading::from_row;
pub use refused::RowRefused;
pub use writing::to_row;
