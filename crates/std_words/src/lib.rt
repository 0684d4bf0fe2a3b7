//! Values: words on results, lists and options that std lacks, and the steps of proofs about them. It knows nothing of documents.
#![tactic(auto)]

mod laws;
mod pieces;

pub use laws::steps_group;
pub use pieces::{head, tail};
