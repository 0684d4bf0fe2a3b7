//! Query: updates as steps, what they make of a document, and how they are read from documents.
#![tactic(auto)]

mod conflicts;
mod names;
mod operands;
mod operators;
mod paths;
mod reading;
mod refused;
mod update;

pub use refused::UpdateRefused;
pub use update::{BitKind, Number, Step, Update};
