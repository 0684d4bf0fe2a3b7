//! Values: documents written as a line of text, `{a: 1, b: {$gt: 1L}, c: [null, true, "x", /re/]}`, for the tables of tests.
#![tactic(auto)]

mod reading;
mod scalars;

pub use reading::{document, documents, value};
