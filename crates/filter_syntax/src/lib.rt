//! Query: filters as trees, what they mean, and how they are read from documents.
#![tactic(auto)]

mod filter;
mod names;
mod operands;
mod operators;
mod paths;
mod reading;
mod refused;
mod type_bytes;

pub use filter::{Filter, Test};
pub use refused::FilterRefused;
