//! Values: values under keys, each at a place of its own, found by key through an ordered map.
#![tactic(auto)]

mod entry;
mod index;
mod keyed;

pub use entry::Entry;
pub use keyed::Keyed;
