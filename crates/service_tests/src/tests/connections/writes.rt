//! Updates, deletes and findAndModify: messages one after another on a connection, each with its reply.

use super::queries::message;
use super::streams::piped;
use bson_values::Bytes;
use std::alloc::Global;
use std::test::Fail;

/// The documents of a message and of its reply.
type Line = (&'static str, &'static str);

/// A name, and what is said in turn.
type Talk = (&'static str, &'static [Line]);

const ONE: &str = "{n: 1, ok: 1}";

const TWO: &str = "{n: 2, ok: 1}";

const THREE: &str = "{n: 3, ok: 1}";

const CHANGED: &str = "{n: 1, nModified: 1, ok: 1}";

const FIND: &str = r#"{find: "c", $db: "t"}"#;

const BAD_UPDATE: &str = r#"{ok: 0, errmsg: "bad update", code: 9, codeName: "FailedToParse"}"#;

static UPDATES: [Talk; 9] = [
    (
        "$inc goes on from an int to a long",
        &[
            (
                r#"{insert: "c", documents: [{_id: 1, a: 2147483647}], $db: "t"}"#,
                ONE,
            ),
            (
                r#"{update: "c", updates: [{q: {_id: 1}, u: {$inc: {a: 1}}}], $db: "t"}"#,
                CHANGED,
            ),
            (
                FIND,
                r#"{cursor: {firstBatch: [{_id: 1, a: 2147483648L}], id: 0L, ns: "t.c"}, ok: 1}"#,
            ),
        ],
    ),
    (
        "$inc does not go past the last long",
        &[
            (
                r#"{insert: "c", documents: [{_id: 1, a: 9223372036854775807L}], $db: "t"}"#,
                ONE,
            ),
            (
                r#"{update: "c", updates: [{q: {_id: 1}, u: {$inc: {a: 1}}}], $db: "t"}"#,
                r#"{n: 0, nModified: 0, writeErrors: [{index: 0, code: 2, errmsg: "number out of range"}], ok: 1}"#,
            ),
            (
                FIND,
                r#"{cursor: {firstBatch: [{_id: 1, a: 9223372036854775807L}], id: 0L, ns: "t.c"}, ok: 1}"#,
            ),
        ],
    ),
    (
        "paths that conflict refuse the message",
        &[(
            r#"{update: "c", updates: [{q: {}, u: {$set: {a: 1, "a.b": 2}}}], $db: "t"}"#,
            r#"{ok: 0, errmsg: "update paths conflict", code: 40, codeName: "ConflictingUpdateOperators"}"#,
        )],
    ),
    (
        "an update that its document refuses is a write error",
        &[
            (
                r#"{insert: "c", documents: [{_id: 1, a: 1, b: "x"}], $db: "t"}"#,
                ONE,
            ),
            (
                r#"{update: "c", updates: [{q: {_id: 1}, u: {$set: {_id: 2}}}], $db: "t"}"#,
                r#"{n: 0, nModified: 0, writeErrors: [{index: 0, code: 66, errmsg: "_id cannot change"}], ok: 1}"#,
            ),
            (
                r#"{update: "c", updates: [{q: {_id: 1}, u: {$set: {"a.b": 1}}}], $db: "t"}"#,
                r#"{n: 0, nModified: 0, writeErrors: [{index: 0, code: 28, errmsg: "path cannot be created"}], ok: 1}"#,
            ),
            (
                r#"{update: "c", updates: [{q: {_id: 1}, u: {$inc: {b: 1}}}], $db: "t"}"#,
                r#"{n: 0, nModified: 0, writeErrors: [{index: 0, code: 14, errmsg: "value is not a whole number"}], ok: 1}"#,
            ),
            (
                FIND,
                r#"{cursor: {firstBatch: [{_id: 1, a: 1, b: "x"}], id: 0L, ns: "t.c"}, ok: 1}"#,
            ),
        ],
    ),
    (
        "an upsert begins with the equalities of its filter",
        &[
            (
                r#"{update: "c", updates: [{q: {k: 5, "a.b": 2, _id: 9}, u: {$inc: {n: 3}}, upsert: true}], $db: "t"}"#,
                "{n: 1, nModified: 0, upserted: [{index: 0, _id: 9}], ok: 1}",
            ),
            (
                FIND,
                r#"{cursor: {firstBatch: [{_id: 9, k: 5, a: {b: 2}, n: 3}], id: 0L, ns: "t.c"}, ok: 1}"#,
            ),
        ],
    ),
    (
        "an update of all is of each document or of none",
        &[
            (
                r#"{insert: "c", documents: [{_id: 1, v: 1}, {_id: 2, v: "x"}], $db: "t"}"#,
                TWO,
            ),
            (
                r#"{update: "c", updates: [{q: {}, u: {$inc: {v: 1}}, multi: true}], $db: "t"}"#,
                r#"{n: 0, nModified: 0, writeErrors: [{index: 0, code: 14, errmsg: "value is not a whole number"}], ok: 1}"#,
            ),
            (
                FIND,
                r#"{cursor: {firstBatch: [{_id: 1, v: 1}, {_id: 2, v: "x"}], id: 0L, ns: "t.c"}, ok: 1}"#,
            ),
        ],
    ),
    (
        "a replacement keeps the _id first, and the place of its document",
        &[
            (
                r#"{insert: "c", documents: [{_id: 1}, {_id: 2, a: 2}, {_id: 3}], $db: "t"}"#,
                THREE,
            ),
            (
                r#"{update: "c", updates: [{q: {a: 2}, u: {b: 7}}], $db: "t"}"#,
                CHANGED,
            ),
            (
                FIND,
                r#"{cursor: {firstBatch: [{_id: 1}, {_id: 2, b: 7}, {_id: 3}], id: 0L, ns: "t.c"}, ok: 1}"#,
            ),
        ],
    ),
    (
        "an ordered update stops behind its first error",
        &[
            (
                r#"{insert: "c", documents: [{_id: 1, a: 1}, {_id: 2, a: "x"}, {_id: 3, a: 1}], $db: "t"}"#,
                THREE,
            ),
            (
                r#"{update: "c", updates: [{q: {_id: 1}, u: {$inc: {a: 1}}}, {q: {_id: 2}, u: {$inc: {a: 1}}}, {q: {_id: 3}, u: {$inc: {a: 1}}}], $db: "t"}"#,
                r#"{n: 1, nModified: 1, writeErrors: [{index: 1, code: 14, errmsg: "value is not a whole number"}], ok: 1}"#,
            ),
        ],
    ),
    (
        "an update that is not ordered goes on",
        &[
            (
                r#"{insert: "c", documents: [{_id: 1, a: 1}, {_id: 2, a: "x"}, {_id: 3, a: 1}], $db: "t"}"#,
                THREE,
            ),
            (
                r#"{update: "c", updates: [{q: {_id: 1}, u: {$inc: {a: 1}}}, {q: {_id: 2}, u: {$inc: {a: 1}}}, {q: {_id: 3}, u: {$inc: {a: 1}}}], ordered: false, $db: "t"}"#,
                r#"{n: 2, nModified: 2, writeErrors: [{index: 1, code: 14, errmsg: "value is not a whole number"}], ok: 1}"#,
            ),
        ],
    ),
];

static DELETES: [Talk; 2] = [
    (
        "a delete with limit 0 takes all",
        &[
            (
                r#"{insert: "c", documents: [{_id: 1}, {_id: 2}], $db: "t"}"#,
                TWO,
            ),
            (
                r#"{delete: "c", deletes: [{q: {}, limit: 0}], $db: "t"}"#,
                TWO,
            ),
            (
                FIND,
                r#"{cursor: {firstBatch: [], id: 0L, ns: "t.c"}, ok: 1}"#,
            ),
        ],
    ),
    (
        "a delete with limit 1 takes the first",
        &[
            (
                r#"{insert: "c", documents: [{_id: 1}, {_id: 2}], $db: "t"}"#,
                TWO,
            ),
            (
                r#"{delete: "c", deletes: [{q: {}, limit: 1}], $db: "t"}"#,
                ONE,
            ),
            (
                FIND,
                r#"{cursor: {firstBatch: [{_id: 2}], id: 0L, ns: "t.c"}, ok: 1}"#,
            ),
        ],
    ),
];

static MODIFIES: [Talk; 6] = [
    (
        "a removal gives the document that is gone",
        &[
            (
                r#"{insert: "c", documents: [{_id: 1, a: 1}], $db: "t"}"#,
                ONE,
            ),
            (
                r#"{findAndModify: "c", query: {a: 1}, remove: true, $db: "t"}"#,
                "{lastErrorObject: {n: 1}, value: {_id: 1, a: 1}, ok: 1}",
            ),
            (
                r#"{findAndModify: "c", query: {a: 1}, remove: true, $db: "t"}"#,
                "{lastErrorObject: {n: 0}, value: null, ok: 1}",
            ),
        ],
    ),
    (
        "an update gives the document as it was, or with new as it is",
        &[
            (
                r#"{insert: "c", documents: [{_id: 1, a: 1}], $db: "t"}"#,
                ONE,
            ),
            (
                r#"{findAndModify: "c", query: {_id: 1}, update: {$inc: {a: 1}}, $db: "t"}"#,
                "{lastErrorObject: {n: 1, updatedExisting: true}, value: {_id: 1, a: 1}, ok: 1}",
            ),
            (
                r#"{findAndModify: "c", query: {_id: 1}, update: {$inc: {a: 1}}, new: true, $db: "t"}"#,
                "{lastErrorObject: {n: 1, updatedExisting: true}, value: {_id: 1, a: 3}, ok: 1}",
            ),
            (
                r#"{findAndModify: "c", query: {_id: 2}, update: {$inc: {a: 1}}, new: true, $db: "t"}"#,
                "{lastErrorObject: {n: 0, updatedExisting: false}, value: null, ok: 1}",
            ),
        ],
    ),
    (
        "an upsert tells the _id, and with new the document",
        &[
            (
                r#"{findAndModify: "c", query: {_id: 5}, update: {$set: {a: 1}}, upsert: true, $db: "t"}"#,
                "{lastErrorObject: {n: 1, updatedExisting: false, upserted: 5}, value: null, ok: 1}",
            ),
            (
                r#"{findAndModify: "c", query: {_id: 6}, update: {$set: {a: 1}}, upsert: true, new: true, $db: "t"}"#,
                "{lastErrorObject: {n: 1, updatedExisting: false, upserted: 6}, value: {_id: 6, a: 1}, ok: 1}",
            ),
        ],
    ),
    (
        "a sort tells which document is changed, and it keeps its place",
        &[
            (
                r#"{insert: "c", documents: [{_id: 1, a: 1}, {_id: 2, a: 2}], $db: "t"}"#,
                TWO,
            ),
            (
                r#"{findAndModify: "c", sort: {a: -1}, update: {z: 1}, new: true, $db: "t"}"#,
                "{lastErrorObject: {n: 1, updatedExisting: true}, value: {_id: 2, z: 1}, ok: 1}",
            ),
            (
                FIND,
                r#"{cursor: {firstBatch: [{_id: 1, a: 1}, {_id: 2, z: 1}], id: 0L, ns: "t.c"}, ok: 1}"#,
            ),
        ],
    ),
    (
        "fields give the document in a shape, which is not stored",
        &[
            (
                r#"{insert: "c", documents: [{_id: 1, a: 1, b: 2}], $db: "t"}"#,
                ONE,
            ),
            (
                r#"{findAndModify: "c", update: {$inc: {a: 1}}, new: true, fields: {a: 1, _id: 0}, $db: "t"}"#,
                "{lastErrorObject: {n: 1, updatedExisting: true}, value: {a: 2}, ok: 1}",
            ),
            (
                FIND,
                r#"{cursor: {firstBatch: [{_id: 1, a: 2, b: 2}], id: 0L, ns: "t.c"}, ok: 1}"#,
            ),
        ],
    ),
    (
        "a removal with an update is refused, and so is neither",
        &[
            (
                r#"{findAndModify: "c", remove: true, update: {a: 1}, $db: "t"}"#,
                BAD_UPDATE,
            ),
            (r#"{findAndModify: "c", $db: "t"}"#, BAD_UPDATE),
        ],
    ),
];

/// The messages of a talk.
fn asked(alloc: Global, lines: &[Line]) -> Option<Bytes> {
    let mut bytes = Bytes::new(alloc);
    for (asked, _) in lines {
        let message = message(alloc, 7, 0, asked)?;
        bytes.extend(message.as_slice()).ok()?;
    }
    Some(bytes)
}

/// The replies of a talk, numbered from 1 on.
fn told(alloc: Global, lines: &[Line]) -> Option<Bytes> {
    let mut bytes = Bytes::new(alloc);
    let mut number = 0u8;
    for (_, told) in lines {
        number = number.wrapping_add(1);
        let reply = message(alloc, number, 7, told)?;
        bytes.extend(reply.as_slice()).ok()?;
    }
    Some(bytes)
}

/// Whether these messages are answered so.
fn is_answered(alloc: Global, asked: Option<Bytes>, told: Option<Bytes>) -> Result<bool, Fail> {
    let (Some(asked), Some(told)) = (asked, told) else {
        return Ok(false);
    };
    let came = piped(alloc, asked.as_slice())?;
    Ok(came.written.as_slice() == told.as_slice())
}

/// The first talk that goes otherwise.
fn wrong(alloc: Global, talks: &[Talk]) -> Result<Option<&'static str>, Fail> {
    for (name, lines) in talks {
        if !is_answered(alloc, asked(alloc, lines), told(alloc, lines))? {
            return Ok(Some(name));
        }
    }
    Ok(None)
}

#[test]
fn each_update_has_its_reply(rt: HostRuntime) -> Result<(), Fail> {
    assert_eq!(rt; wrong(rt.alloc(), &UPDATES)?, None);
    Ok(())
}

#[test]
fn each_delete_has_its_reply(rt: HostRuntime) -> Result<(), Fail> {
    assert_eq!(rt; wrong(rt.alloc(), &DELETES)?, None);
    Ok(())
}

#[test]
fn each_find_and_modify_has_its_reply(rt: HostRuntime) -> Result<(), Fail> {
    assert_eq!(rt; wrong(rt.alloc(), &MODIFIES)?, None);
    Ok(())
}

/// The text with a string of so many bytes in the place between its halves.
fn around(alloc: Global, halves: (&str, &str), len: u64) -> Option<String> {
    let mut text = String::from_str(alloc, halves.0).ok()?;
    for _ in 0..len {
        text.push_str("x").ok()?;
    }
    text.push_str(halves.1).ok()?;
    Some(text)
}

fn message_around(
    alloc: Global,
    numbers: (u8, u8),
    halves: (&str, &str),
    len: u64,
) -> Option<Bytes> {
    let text = around(alloc, halves, len)?;
    message(alloc, numbers.0, numbers.1, text.as_str())
}

/// An upsert of a document whose `_id` is a string of so many bytes.
fn upsert_of(alloc: Global, len: u64) -> Option<Bytes> {
    let halves = (
        r#"{update: "c", updates: [{q: {_id: ""#,
        r#""}, u: {$set: {a: 1}}, upsert: true}], $db: "t"}"#,
    );
    message_around(alloc, (7, 0), halves, len)
}

/// The reply that it is done.
fn upserted(alloc: Global, len: u64) -> Option<Bytes> {
    let halves = (
        r#"{n: 1, nModified: 0, upserted: [{index: 0, _id: ""#,
        r#""}], ok: 1}"#,
    );
    message_around(alloc, (1, 7), halves, len)
}

const TOO_LARGE: &str =
    r#"{n: 0, nModified: 0, writeErrors: [{index: 0, code: 10334, errmsg: "document too large"}], ok: 1}"#;

#[test]
fn an_upsert_tells_an_id_of_16_374_bytes(rt: HostRuntime) -> Result<(), Fail> {
    let asked = upsert_of(rt.alloc(), 16_374);
    let told = upserted(rt.alloc(), 16_374);
    assert!(rt; is_answered(rt.alloc(), asked, told)?);
    let asked = upsert_of(rt.alloc(), 16_375);
    let told = message(rt.alloc(), 1, 7, TOO_LARGE);
    assert!(rt; is_answered(rt.alloc(), asked, told)?);
    Ok(())
}
