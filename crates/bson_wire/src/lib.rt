//! Wire: the bytes of documents, as BSON 1.1 says.
#![tactic(auto)]

mod foreign;
mod laws;
mod reader;
mod refused;
mod scalars;
mod writing;

pub use foreign::Foreign;
pub use laws::{
    a_document_is_as_long_as_its_size, no_spelling_begins_another, what_was_read_can_be_written,
    what_was_written_is_read_again,
};
pub use reader::{Front, read};
pub use refused::ReadRefused;
pub use scalars::name;
pub use writing::{write, write_in};
