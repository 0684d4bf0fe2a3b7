//! Values: their bytes, in the form of BSON and in the form of keys. `bson_wire` reads and writes documents, `bson_order` makes keys.
#![tactic(auto)]

mod counting;
mod form;
mod writing;

pub use counting::content_len;
pub use form::Form;
pub use writing::{put_document, put_tagged};
