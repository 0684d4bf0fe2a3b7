//! Query: the values that stand at a path in documents, each once.
#![tactic(auto)]

mod distinct;

pub use distinct::Distinct;
