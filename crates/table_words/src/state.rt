use bson_values::Space;
use std::collections::LinkedList;
use table_rows::Placed;

/// A live table, as clauses see it. No value of it is made.
#[derive(Drop)]
pub struct TableState {
    pub number: u64,
    pub stamp: u64,
    pub space: Space,
    /// In the order of their places.
    pub rows: LinkedList<Placed>,
}

/// All tables, as clauses see them. No value of it is made.
#[derive(Drop)]
pub struct TablesState {
    /// In the order of their creation.
    pub live: LinkedList<TableState>,
    pub next: u64,
}
