use bson_values::{Document, List, Value};
use doc_paths::Path;

/// What is made of a document (MongoDB manual, "Update Operators").
#[derive(Drop)]
pub enum Update {
    /// The document in its place, but for its `_id`.
    Replace(Document),
    /// Each of them, one after another.
    Steps(List<Step>),
}

/// A whole number of one of the two types.
#[derive(Clone, Copy)]
pub enum Number {
    Int(i32),
    Long(i64),
}

/// What `$bit` does to the bits of two numbers.
#[derive(Clone, Copy)]
pub enum BitKind {
    And,
    Or,
    Xor,
}

/// One operator at one path.
#[derive(Drop)]
pub enum Step {
    Set(Path, Value),
    SetOnInsert(Path, Value),
    Unset(Path),
    Inc(Path, Number),
    Mul(Path, Number),
    Min(Path, Value),
    Max(Path, Value),
    /// From the first path to the second.
    Rename(Path, Path),
    Push(Path, List<Value>),
    AddToSet(Path, List<Value>),
    /// The last item, or the first.
    Pop { path: Path, last: bool },
    Pull(Path, Value),
    PullAll(Path, List<Value>),
    /// The date of the moment, or its timestamp.
    CurrentDate { path: Path, date: bool },
    Bit(Path, BitKind, Number),
}
