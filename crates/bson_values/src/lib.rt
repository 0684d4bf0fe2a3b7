//! Values: documents as lists of named values, the texts, bytes and lists in them, their measures, and whether they may be stored.
//! `bson_order` has their order, `bson_wire` their bytes.
#![tactic(auto)]

mod bytes;
mod copying;
mod index;
mod laws;
mod list;
mod measures;
mod memory;
mod pairs;
mod room;
mod space;
mod storing;
mod text;
mod value;
mod wide;

pub use bytes::Bytes;
pub use laws::storable_where_allowed;
pub use list::List;
pub use memory::NoMemory;
pub use pairs::{Pair, Pairs};
pub use room::Room;
pub use space::Space;
pub use storing::{MOST_BYTES, MOST_LEVELS, Unstorable, storable};
pub use text::Text;
pub use value::{Binary, Document, Regex, Value};
