//! Values: which names databases and collections may have, and which values a document's `_id` may have.
#![tactic(auto)]

mod ids;
mod names;

pub use ids::can_be_id;
pub use names::{is_collection_name, is_database_name, is_valid};
