use super::messages::{Words, message};
use bson_values::{Document, List, Space, Value};
use command_words::Command;
use doc_model::{Modify, Op};
use std::alloc::Global;
use std::test::Fail;

/// What a message means whose command is on the collection `t.c`.
#[derive(Clone, Copy, Debug, PartialEq, Eq)]
enum Asked {
    Ping,
    /// An insert of a document with this `_id` alone.
    Insert(i64),
    Update {
        multi: bool,
        upsert: bool,
    },
    /// A delete, of the first document alone.
    Delete(bool),
    FindAndModify {
        removes: bool,
        fresh: bool,
        upsert: bool,
    },
    Find {
        skip: u64,
        limit: u64,
        cut: Option<u64>,
        batch: u64,
    },
    Count {
        skip: u64,
        limit: u64,
    },
    /// The distinct values at a path of so many parts.
    Distinct(usize),
    Other,
}

fn id_of(doc: &Document) -> Asked {
    match (doc.len(), doc.pair(0)) {
        (1, Some(("_id", Value::Int(id)))) => Asked::Insert(i64::from(*id)),
        (1, Some(("_id", Value::Long(id)))) => Asked::Insert(*id),
        _ => Asked::Other,
    }
}

fn is_on(space: &Space) -> bool {
    space.db.as_str() == "t" && space.coll.as_str() == "c"
}

fn done(op: &Op) -> Asked {
    match op {
        Op::Insert { space, doc } if is_on(space) => id_of(doc),
        Op::Update {
            space,
            multi,
            upsert,
            ..
        } if is_on(space) => Asked::Update {
            multi: *multi,
            upsert: *upsert,
        },
        Op::Delete { space, one, .. } if is_on(space) => Asked::Delete(*one),
        Op::FindAndModify {
            space,
            change,
            fresh,
            upsert,
            ..
        } if is_on(space) => Asked::FindAndModify {
            removes: matches!(change, Modify::Remove),
            fresh: *fresh,
            upsert: *upsert,
        },
        Op::Count {
            space,
            skip,
            limit,
            ..
        } if is_on(space) => Asked::Count {
            skip: *skip,
            limit: *limit,
        },
        Op::Distinct { space, path, .. } if is_on(space) => Asked::Distinct(path.parts().len()),
        _ => Asked::Other,
    }
}

fn found(op: &Op, batch: u64) -> Asked {
    match op {
        Op::Find { space, query } if is_on(space) => Asked::Find {
            skip: query.skip,
            limit: query.limit,
            cut: query.cut,
            batch,
        },
        _ => Asked::Other,
    }
}

/// What the one operation asks.
fn only(ops: &List<Op>) -> Asked {
    match ops.as_slice() {
        [op] => done(op),
        _ => Asked::Other,
    }
}

fn command_asks(command: &Command) -> Asked {
    match command {
        Command::Ping => Asked::Ping,
        Command::Insert { ops, .. } => only(ops),
        Command::Update { ops, .. } => only(ops),
        Command::Delete { ops, .. } => only(ops),
        Command::FindAndModify { op } => done(op),
        Command::Find { op, batch } => found(op, *batch),
        Command::Count { op } => done(op),
        Command::Distinct { op } => done(op),
    }
}

/// None for a message that is refused, and where memory is wanting.
fn meant(alloc: Global, words: Words) -> Option<Asked> {
    let message = message(alloc, words)?;
    let command = Command::read(alloc, message).ok()?;
    Some(command_asks(&command))
}

/// Messages, and what they mean.
static ACCEPTED: [(Words, Asked); 22] = [
    (
        (r#"{insert: "c", documents: [{_id: 1}], $db: "t"}"#, "{}"),
        Asked::Insert(1),
    ),
    (
        (r#"{insert: "c", $db: "t"}"#, "{documents: [{_id: 1}]}"),
        Asked::Insert(1),
    ),
    (
        (
            r#"{insert: "c", documents: [{_id: 5000000000L}], $db: "t"}"#,
            "{}",
        ),
        Asked::Insert(5_000_000_000),
    ),
    (
        (
            r#"{update: "c", updates: [{q: {}, u: {a: 1}, upsert: 1}], $db: "t"}"#,
            "{}",
        ),
        Asked::Update {
            multi: false,
            upsert: true,
        },
    ),
    (
        (
            r#"{update: "c", $db: "t"}"#,
            "{updates: [{q: {}, u: {a: 1}, upsert: 1}]}",
        ),
        Asked::Update {
            multi: false,
            upsert: true,
        },
    ),
    // The first field of a name counts.
    (
        (
            r#"{update: "c", $db: "t"}"#,
            "{updates: [{q: {}, u: {$set: {a: 1}}, multi: true, multi: false}]}",
        ),
        Asked::Update {
            multi: true,
            upsert: false,
        },
    ),
    (
        (
            r#"{delete: "c", deletes: [{q: {}, limit: 0}], $db: "t"}"#,
            "{}",
        ),
        Asked::Delete(false),
    ),
    (
        (
            r#"{delete: "c", $db: "t"}"#,
            "{deletes: [{q: {}, limit: 1L}]}",
        ),
        Asked::Delete(true),
    ),
    (
        (
            r#"{findAndModify: "c", query: {a: 1}, remove: true, new: false, $db: "t"}"#,
            "{}",
        ),
        Asked::FindAndModify {
            removes: true,
            fresh: false,
            upsert: false,
        },
    ),
    (
        (
            r#"{findandmodify: "c", update: {a: 1}, new: true, $db: "t"}"#,
            "{}",
        ),
        Asked::FindAndModify {
            removes: false,
            fresh: true,
            upsert: false,
        },
    ),
    (
        (
            r#"{findAndModify: "c", update: {$inc: {a: 1}}, remove: 0, upsert: 1, $db: "t"}"#,
            "{}",
        ),
        Asked::FindAndModify {
            removes: false,
            fresh: false,
            upsert: true,
        },
    ),
    (
        (
            r#"{findAndModify: "c", remove: true, sort: {a: 1}, fields: {b: 0}, $db: "t"}"#,
            "{}",
        ),
        Asked::FindAndModify {
            removes: true,
            fresh: false,
            upsert: false,
        },
    ),
    (
        (r#"{find: "c", $db: "t"}"#, "{}"),
        Asked::Find {
            skip: 0,
            limit: 0,
            cut: None,
            batch: 101,
        },
    ),
    (
        (
            r#"{find: "c", filter: {}, sort: {a: -1}, projection: {b: 1}, skip: 3L, limit: 4, batchSize: 0, singleBatch: 0, $db: "t"}"#,
            "{}",
        ),
        Asked::Find {
            skip: 3,
            limit: 4,
            cut: None,
            batch: 0,
        },
    ),
    (
        (
            r#"{find: "c", batchSize: 2, singleBatch: true, $db: "t"}"#,
            "{}",
        ),
        Asked::Find {
            skip: 0,
            limit: 0,
            cut: Some(2),
            batch: 2,
        },
    ),
    ((r#"{ping: 1, $db: "admin"}"#, "{}"), Asked::Ping),
    (
        (r#"{ping: 1, $db: "admin"}"#, "{x: [{_id: 1}]}"),
        Asked::Ping,
    ),
    (
        (r#"{count: "c", $db: "t"}"#, "{}"),
        Asked::Count { skip: 0, limit: 0 },
    ),
    (
        (r#"{count: "c", skip: 2L, limit: -3, $db: "t"}"#, "{}"),
        Asked::Count { skip: 2, limit: 3 },
    ),
    (
        (
            r#"{count: "c", limit: -9223372036854775808L, $db: "t"}"#,
            "{}",
        ),
        Asked::Count {
            skip: 0,
            limit: 9_223_372_036_854_775_808,
        },
    ),
    (
        (r#"{distinct: "c", key: "a", $db: "t"}"#, "{}"),
        Asked::Distinct(1),
    ),
    (
        (
            r#"{distinct: "c", key: "a.0.b", query: {}, $db: "t"}"#,
            "{}",
        ),
        Asked::Distinct(3),
    ),
];

#[test]
fn each_message_has_its_meaning(rt: HostRuntime) -> Result<(), Fail> {
    for ((body, beside), wanted) in &ACCEPTED {
        let told = meant(rt.alloc(), (body, beside));
        assert!(rt; told == Some(*wanted), "{body}");
    }
    Ok(())
}
