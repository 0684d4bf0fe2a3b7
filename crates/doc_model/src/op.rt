use bson_values::{Document, List, Space, Value};
use case_tables::Kind;
use doc_paths::Path;
use doc_shape::{Order, Shape};
use filter_syntax::Filter;
use update_syntax::Update;

/// Which documents of a collection are shown, in which order and shape: those that the filter holds of, sorted, past the first `skip` and up
/// to `limit`, where that is not 0. With `cut` they are cut to a batch of at most so many, and 16,777,216 bytes.
#[derive(Drop)]
pub struct Query {
    pub filter: Filter,
    pub order: Order,
    pub skip: u64,
    pub limit: u64,
    pub shape: Shape,
    pub cut: Option<u64>,
}

/// What is done to the document that is found and told.
#[derive(Drop)]
pub enum Modify {
    Remove,
    Change(Update),
}

/// What is asked of the store. It carries all that its meaning depends on, beside the store, the asker and the moment.
#[derive(Drop)]
pub enum Op {
    /// To add a document to a collection, which is created where it is absent. Its `_id` goes first, and is generated where it has none.
    Insert {
        space: Space,
        doc: Document,
    },
    /// To show documents of a collection.
    Find {
        space: Space,
        query: Query,
    },
    /// To count them, past the first `skip` and up to `limit`, where that is not 0.
    Count {
        space: Space,
        filter: Filter,
        skip: u64,
        limit: u64,
    },
    /// To show the values that stand at a path in them, each once.
    Distinct {
        space: Space,
        path: Path,
        filter: Filter,
    },
    /// To change the first document that a filter holds of, or all with `multi`: each of them, or none. With `upsert` a document is built
    /// and inserted where the filter holds of none.
    Update {
        space: Space,
        filter: Filter,
        update: Update,
        multi: bool,
        upsert: bool,
    },
    /// To remove the documents that a filter holds of, or the first of them alone.
    Delete {
        space: Space,
        filter: Filter,
        one: bool,
    },
    /// To remove or change the first document, in this order, that a filter holds of, and to show it in a shape as it was, or as it is then
    /// with `fresh`. With `upsert` a document is built and inserted where the filter holds of none. `fresh` and `upsert` say nothing of a
    /// removal.
    FindAndModify {
        space: Space,
        filter: Filter,
        order: Order,
        change: Modify,
        fresh: bool,
        upsert: bool,
        shape: Shape,
    },
}

/// What the store replies.
#[derive(Drop)]
pub enum OpReply {
    Inserted,
    /// The documents that were asked for: in the order that was asked for, and else in that of their insertion.
    Selected(List<Document>),
    /// How many documents there are.
    Counted(u64),
    /// The values that were asked for, in the order in which they stand first. As an array of BSON 1.1 they have at most 16,777,216 bytes.
    Values(List<Value>),
    /// So many documents the filter held of, so many of them are no longer what they were, and this is the `_id` of one that was inserted.
    Updated {
        matched: u64,
        changed: u64,
        upserted: Option<Value>,
    },
    /// So many documents were removed.
    Deleted(u64),
    /// Whether the filter held of a document, the `_id` of one that was inserted, and the document that is shown.
    Modified {
        existed: bool,
        upserted: Option<Value>,
        value: Option<Document>,
    },
    /// Nothing was done, for this reason.
    Refused(Kind),
    /// Nothing was done: the change could not be kept.
    Fault,
    /// Nothing was done, for want of memory.
    NoMemory,
}
