//! Service: what a message is answered, and the documents that tell it.
#![tactic(auto)]

mod arrays;
mod batches;
mod elements;
mod ends;
mod fields;
mod items;
mod laws;
mod listing;
mod modified;
mod refusals;
mod replies;
mod sizes;

pub use batches::fit_a_batch;
pub use ends::ItemEnd;
pub use items::{put_items, put_items_reply};
pub use laws::{
    a_small_reply_can_be_sent, the_room_for_a_modified_document_is_enough,
    the_room_for_items_is_enough,
};
pub use modified::{MOST_MODIFIED_SIZE, modified_size, put_modified, put_modified_reply};
pub use refusals::error;
pub use replies::{Reply, done};
pub use sizes::{items_size, most_items_size};
