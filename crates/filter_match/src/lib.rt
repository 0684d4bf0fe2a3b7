//! Query: whether a filter holds of a document.
#![tactic(auto)]

mod asking;
mod candidates;
mod matching;
mod tails;

pub use matching::matches;
