//! Query: a document after an update, and the document with which an upsert begins.
#![tactic(auto)]

mod applying;
mod arrays;
mod fields;
mod ids;
mod moments;
mod numbers;
mod putting;
mod refused;
mod seeds;
mod sets;

pub use applying::apply;
pub use refused::ApplyRefused;
pub use seeds::seed;
