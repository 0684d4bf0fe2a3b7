use bson_values::{Bytes, Space};
use std::collections::LinkedList;

/// A cursor, as clauses see it. No value of it is made.
#[derive(Drop)]
pub struct Cursor {
    pub id: u64,
    pub space: Space,
    /// What was not given yet, in order.
    pub rest: LinkedList<Bytes>,
    /// The greatest moment that was seen when it was started or gave its last batch.
    pub last: u64,
}

/// All cursors, as clauses see them. No value of it is made.
#[derive(Drop)]
pub struct CursorsState {
    /// The one that was started or gave a batch last is first.
    pub held: LinkedList<Cursor>,
    /// The id that is given next.
    pub next: u64,
    /// The greatest moment of all calls.
    pub latest: u64,
}
