//! Documents that go in by one insert, what is asked of them, and the reply.

use super::streams::{PING, joined, piped};
use bson_values::{Bytes, Document, Room};
use bson_wire::write_in;
use notation::document;
use std::alloc::Global;
use std::test::Fail;

/// The bytes of a small document.
fn spelled(alloc: Global, doc: &Document) -> Option<Bytes> {
    let size = doc.size();
    if size > 40_000 {
        return None;
    }
    let mut room = Room::new(alloc, size).ok()?;
    write_in(doc, &mut room);
    Some(room.bytes())
}

/// The document that the text writes, behind a header with these two numbers.
pub(super) fn message(alloc: Global, request: u8, response: u8, text: &str) -> Option<Bytes> {
    let doc = document(alloc, text)?;
    let spelled = spelled(alloc, &doc)?;
    let len = u32::try_from(spelled.len().saturating_add(21)).ok()?;
    let numbers = [request, 0, 0, 0, response, 0, 0, 0];
    let header: [&[u8]; 4] = [
        &len.to_le_bytes(),
        &numbers,
        &PING[12..21],
        spelled.as_slice(),
    ];
    joined(alloc, &header).ok()
}

/// Documents, a command on their collection, and the document of its reply.
type Row = (&'static str, &'static str, &'static str);

const PATHS: &str =
    r#"[{_id: 1, a: 1}, {_id: 2, a: [1, 2]}, {_id: 3, a: [[1]]}, {_id: 4, a: "1"}, {_id: 5}]"#;

const IDS: &str =
    r#"[{_id: 1, a: Id(0102030405060708090a0b0c)}, {_id: 2, a: "0102030405060708090a0b0c"}]"#;

const NULLS: &str = r#"[{_id: 1}, {_id: 2, a: null}, {_id: 3, a: [null]}, {_id: 4, a: 0}]"#;

const RANGES: &str = r#"[{_id: 1, a: [0, 5]}, {_id: 2, a: 2}, {_id: 3, a: "3"}]"#;

const PLACES: &str = r#"[{_id: 1, a: [1]}, {_id: 2, a: {"0": 1}}, {_id: 3, a: 1}]"#;

const NINE: &str =
    "[{_id: 1}, {_id: 2}, {_id: 3}, {_id: 4}, {_id: 5}, {_id: 6}, {_id: 7}, {_id: 8}, {_id: 9}]";

const VALUES: &str = r#"[{_id: 1, a: 1}, {_id: 2, a: [1L, 2]}, {_id: 3, a: "x"}]"#;

/// Keys of which one is of an array, one of an empty one, and one is absent.
const KEYS: &str = "[{_id: 1, a: [3, 1]}, {_id: 2, a: 2}, {_id: 3, a: []}, {_id: 4}]";

const NESTED: &str = "[{_id: 1, a: {b: 1, c: 2}}]";

const THREE: &str = "[{_id: 1}, {_id: 2}, {_id: 3}]";

static ANSWERED: [Row; 19] = [
    (
        PATHS,
        r#"{find: "c", filter: {a: 1}, $db: "t"}"#,
        r#"{cursor: {firstBatch: [{_id: 1, a: 1}, {_id: 2, a: [1, 2]}], id: 0L, ns: "t.c"}, ok: 1}"#,
    ),
    (
        IDS,
        r#"{find: "c", filter: {a: Id(0102030405060708090a0b0c)}, $db: "t"}"#,
        r#"{cursor: {firstBatch: [{_id: 1, a: Id(0102030405060708090a0b0c)}], id: 0L, ns: "t.c"}, ok: 1}"#,
    ),
    (
        NULLS,
        r#"{find: "c", filter: {a: null}, $db: "t"}"#,
        r#"{cursor: {firstBatch: [{_id: 1}, {_id: 2, a: null}, {_id: 3, a: [null]}], id: 0L, ns: "t.c"}, ok: 1}"#,
    ),
    (
        RANGES,
        r#"{find: "c", filter: {a: {$gt: 1, $lt: 4}}, $db: "t"}"#,
        r#"{cursor: {firstBatch: [{_id: 1, a: [0, 5]}, {_id: 2, a: 2}], id: 0L, ns: "t.c"}, ok: 1}"#,
    ),
    (
        PLACES,
        r#"{find: "c", filter: {"a.0": 1}, $db: "t"}"#,
        r#"{cursor: {firstBatch: [{_id: 1, a: [1]}, {_id: 2, a: {"0": 1}}], id: 0L, ns: "t.c"}, ok: 1}"#,
    ),
    (
        NINE,
        r#"{find: "d", $db: "t"}"#,
        r#"{cursor: {firstBatch: [], id: 0L, ns: "t.d"}, ok: 1}"#,
    ),
    (
        KEYS,
        r#"{find: "c", sort: {a: 1}, projection: {_id: 1}, $db: "t"}"#,
        r#"{cursor: {firstBatch: [{_id: 3}, {_id: 4}, {_id: 1}, {_id: 2}], id: 0L, ns: "t.c"}, ok: 1}"#,
    ),
    (
        KEYS,
        r#"{find: "c", sort: {a: -1}, projection: {_id: 1}, $db: "t"}"#,
        r#"{cursor: {firstBatch: [{_id: 1}, {_id: 2}, {_id: 4}, {_id: 3}], id: 0L, ns: "t.c"}, ok: 1}"#,
    ),
    (
        NESTED,
        r#"{find: "c", projection: {"a.b": 1, _id: 0}, $db: "t"}"#,
        r#"{cursor: {firstBatch: [{a: {b: 1}}], id: 0L, ns: "t.c"}, ok: 1}"#,
    ),
    (
        THREE,
        r#"{find: "c", skip: 1, limit: 1, $db: "t"}"#,
        r#"{cursor: {firstBatch: [{_id: 2}], id: 0L, ns: "t.c"}, ok: 1}"#,
    ),
    (
        THREE,
        r#"{find: "c", batchSize: 2, singleBatch: true, $db: "t"}"#,
        r#"{cursor: {firstBatch: [{_id: 1}, {_id: 2}], id: 0L, ns: "t.c"}, ok: 1}"#,
    ),
    (NINE, r#"{count: "c", $db: "t"}"#, "{n: 9, ok: 1}"),
    (NINE, r#"{count: "d", $db: "t"}"#, "{n: 0, ok: 1}"),
    (
        NINE,
        r#"{count: "c", skip: 2, limit: -3, $db: "t"}"#,
        "{n: 3, ok: 1}",
    ),
    (
        NINE,
        r#"{count: "c", query: {_id: {$gt: 3}}, skip: 4, $db: "t"}"#,
        "{n: 2, ok: 1}",
    ),
    (
        VALUES,
        r#"{distinct: "c", key: "a", $db: "t"}"#,
        r#"{values: [1, 2, "x"], ok: 1}"#,
    ),
    (
        VALUES,
        r#"{distinct: "c", key: "a", query: {_id: {$gt: 1}}, $db: "t"}"#,
        r#"{values: [1L, 2, "x"], ok: 1}"#,
    ),
    (
        VALUES,
        r#"{distinct: "c", key: "b", $db: "t"}"#,
        "{values: [], ok: 1}",
    ),
    (
        VALUES,
        r#"{distinct: "d", key: "a", $db: "t"}"#,
        "{values: [], ok: 1}",
    ),
];

const NOT_SUPPORTED: &str =
    r#"{ok: 0, errmsg: "not supported", code: 238, codeName: "NotImplemented"}"#;

const UNKNOWN: &str = r#"{ok: 0, errmsg: "unknown operator", code: 2, codeName: "BadValue"}"#;

const BAD_OPERAND: &str = r#"{ok: 0, errmsg: "bad operand", code: 2, codeName: "BadValue"}"#;

const BAD_PROJECTION: &str = r#"{ok: 0, errmsg: "bad projection", code: 2, codeName: "BadValue"}"#;

const BAD_PATH: &str = r#"{ok: 0, errmsg: "bad path", code: 2, codeName: "BadValue"}"#;

const WRONG_TYPE: &str =
    r#"{ok: 0, errmsg: "field has the wrong type", code: 14, codeName: "TypeMismatch"}"#;

const OUT_OF_RANGE: &str =
    r#"{ok: 0, errmsg: "field value out of range", code: 2, codeName: "BadValue"}"#;

const MISSING: &str = r#"{ok: 0, errmsg: "field missing", code: 9, codeName: "FailedToParse"}"#;

const TWICE: &str = r#"{ok: 0, errmsg: "field given twice", code: 9, codeName: "FailedToParse"}"#;

const INVALID: &str =
    r#"{ok: 0, errmsg: "invalid namespace", code: 73, codeName: "InvalidNamespace"}"#;

const NO_COMMAND: &str =
    r#"{ok: 0, errmsg: "no such command", code: 59, codeName: "CommandNotFound"}"#;

static REFUSED: [Row; 16] = [
    (NINE, r#"{find: "c"}"#, MISSING),
    (NINE, r#"{find: "c", $db: 1}"#, WRONG_TYPE),
    (NINE, r#"{find: "c", $db: "a b"}"#, INVALID),
    (NINE, r#"{find: "c", $db: "t", find: "c"}"#, TWICE),
    (NINE, r#"{pong: "c", $db: "t"}"#, NO_COMMAND),
    (NINE, r#"{find: "c", x: 1, $db: "t"}"#, NOT_SUPPORTED),
    (
        NINE,
        r#"{find: "c", filter: {$expr: 1}, $db: "t"}"#,
        NOT_SUPPORTED,
    ),
    (NINE, r#"{find: "c", filter: {$foo: 1}, $db: "t"}"#, UNKNOWN),
    (
        THREE,
        r#"{find: "c", batchSize: 2, $db: "t"}"#,
        NOT_SUPPORTED,
    ),
    (THREE, r#"{find: "c", sort: {a: 2}, $db: "t"}"#, BAD_OPERAND),
    (
        THREE,
        r#"{find: "c", projection: {a: 1, b: 0}, $db: "t"}"#,
        BAD_PROJECTION,
    ),
    (
        NINE,
        r#"{count: "c", query: {a: {$gt: 1, b: 2}}, $db: "t"}"#,
        UNKNOWN,
    ),
    (
        NINE,
        r#"{distinct: "c", key: "_id", query: {"a..b": 1}, $db: "t"}"#,
        BAD_PATH,
    ),
    (NINE, r#"{count: "c", query: 1, $db: "t"}"#, WRONG_TYPE),
    (NINE, r#"{count: "c", skip: -1, $db: "t"}"#, OUT_OF_RANGE),
    (NINE, r#"{distinct: "c", $db: "t"}"#, MISSING),
];

/// The insert of these documents.
fn insert(alloc: Global, docs: &str) -> Option<Bytes> {
    let mut text = String::from_str(alloc, r#"{insert: "c", documents: "#).ok()?;
    text.push_str(docs).ok()?;
    text.push_str(r#", $db: "t"}"#).ok()?;
    message(alloc, 7, 0, text.as_str())
}

/// The messages of a row, and the bytes of the second reply.
fn asked(alloc: Global, row: Row) -> Option<(Bytes, Bytes)> {
    let (docs, command, reply) = row;
    let insert = insert(alloc, docs)?;
    let command = message(alloc, 8, 0, command)?;
    let input = joined(alloc, &[insert.as_slice(), command.as_slice()]).ok()?;
    Some((input, message(alloc, 2, 8, reply)?))
}

/// Whether a row is replied as it says.
fn is_replied(alloc: Global, row: Row) -> Result<bool, Fail> {
    let Some((input, reply)) = asked(alloc, row) else {
        return Ok(false);
    };
    let came = piped(alloc, input.as_slice())?;
    Ok(came.written.as_slice().ends_with(reply.as_slice()))
}

#[test]
fn each_question_has_its_reply(rt: HostRuntime) -> Result<(), Fail> {
    for row in &ANSWERED {
        assert!(rt; is_replied(rt.alloc(), *row)?, "{}", row.1);
    }
    Ok(())
}

#[test]
fn each_refusal_has_its_sentence(rt: HostRuntime) -> Result<(), Fail> {
    for row in &REFUSED {
        assert!(rt; is_replied(rt.alloc(), *row)?, "{}", row.1);
    }
    Ok(())
}
