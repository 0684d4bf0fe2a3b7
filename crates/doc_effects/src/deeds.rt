use bson_values::List;
use doc_model::{Modify, OpReply};
use doc_shape::{Order, Shape};
use table_rows::Row;
use table_words::Edit;
use update_syntax::Update;

/// What is done to the documents that a filter holds of.
#[derive(Drop)]
pub enum Deed {
    /// The first of them, or all, are updated; where there is none, one may be inserted.
    Update {
        update: Update,
        multi: bool,
        upsert: bool,
    },
    /// All of them go, or the first.
    Delete {
        one: bool,
    },
    /// The first in this order goes or is updated, and is shown in a shape; where there is none, one may be inserted.
    Modify {
        order: Order,
        change: Modify,
        fresh: bool,
        upsert: bool,
        shape: Shape,
    },
}

/// What comes of it: the reply, should the change be made, and the change as the tables make it.
#[derive(Drop)]
pub struct Outcome {
    pub reply: OpReply,
    pub edits: List<Edit>,
    pub added: Option<Row>,
}
