//! Values: paths into documents, what they reach, and documents with another value at a path.
#![tactic(auto)]

mod items;
mod path;
mod peeking;
mod places;
mod putting;
mod reached;
mod reaching;
mod refused;
mod taking;

pub use items::item_at;
pub use path::{MOST_PARTS, Path, PathRefused};
pub use peeking::peek;
pub use putting::put;
pub use reached::Reached;
pub use reaching::reach;
pub use refused::PutRefused;
pub use taking::take;
