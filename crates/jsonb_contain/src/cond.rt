use crate::value::Json;
use bson_values::{Bytes, List, Text};

/// A condition on a row and its key.
#[derive(Drop)]
pub enum Cond {
    /// The key is this one.
    KeyIs(Bytes),
    /// The row has a value under this name, which contains this JSON.
    AtKey(Text, Json),
    /// Some of them is met.
    Any(List<Cond>),
    /// Each of them is met.
    All(List<Cond>),
}
