use crate::row::Row;
use std::collections::LinkedList;

/// A row at its place.
#[derive(Drop)]
pub struct Placed {
    pub place: u64,
    pub row: Row,
}

/// A table as contracts see it. No value of it is made.
#[derive(Drop)]
pub struct Listed {
    pub number: u64,
    pub stamp: u64,
    pub rows: LinkedList<Placed>,
}
