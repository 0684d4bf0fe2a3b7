//! Updates with what they make of documents.

use super::filters::filter;
use bson_values::{Binary, Bytes, Document, NoMemory, Text, Value};
use jsonb_contain::equal;
use notation::{document, value};
use std::alloc::Global;
use std::test::Fail;
use typed_json::to_row;
use update_apply::{ApplyRefused, apply, seed};
use update_syntax::Update;

/// An update, a document, and what it becomes at the moment 2^63 + 5.
static ROWS: [(&str, &str, &str); 38] = [
    // Values are put at paths.
    ("{$set: {a: 1}}", "{}", "{a: 1}"),
    ("{$set: {a: 2L}}", "{a: 1, b: 3}", "{a: 2L, b: 3}"),
    (
        "{$set: {a.b.c: 1}}",
        "{a: {x: 0}}",
        "{a: {x: 0, b: {c: 1}}}",
    ),
    ("{$set: {a.3: 1}}", "{a: [0]}", "{a: [0, null, null, 1]}"),
    ("{$set: {a.0.b: 1}}", "{a: [{}, 2]}", "{a: [{b: 1}, 2]}"),
    ("{$set: {a.0: 1}}", "{}", "{a: {0: 1}}"),
    ("{$setOnInsert: {a: 1}}", "{b: 2}", "{b: 2}"),
    (
        "{$unset: {a: 1, b.c: 1}}",
        "{a: 1, b: {c: 1, d: 2}}",
        "{b: {d: 2}}",
    ),
    ("{$unset: {a.1: 1}}", "{a: [1, 2, 3]}", "{a: [1, null, 3]}"),
    (
        "{$unset: {a.5: 1, b.c: 1}}",
        "{a: [1], b: 1}",
        "{a: [1], b: 1}",
    ),
    // In the order written.
    (
        "{$set: {b: 1}, $inc: {a: 1}, $unset: {c: 1}}",
        "{c: 1}",
        "{b: 1, a: 1}",
    ),
    // Numbers.
    ("{$inc: {a: 1}}", "{a: 2147483647}", "{a: 2147483648L}"),
    ("{$inc: {a: 1L}}", "{a: 1}", "{a: 2L}"),
    (
        "{$inc: {a: -1, b: 2L}}",
        "{a: -2147483648}",
        "{a: -2147483649L, b: 2L}",
    ),
    ("{$mul: {a: 2, b: 2L}}", "{}", "{a: 0, b: 0L}"),
    (
        "{$mul: {a: 65536, b: 3}}",
        "{a: 65536, b: -4}",
        "{a: 4294967296L, b: -12}",
    ),
    (
        "{$bit: {a: {and: 12}, b: {or: 12}, c: {xor: 12}}}",
        "{a: 10, b: 10, c: 10}",
        "{a: 8, b: 14, c: 6}",
    ),
    (
        "{$bit: {a: {and: -1}, b: {or: 1L}, c: {xor: -1}, d: {or: 5L}}}",
        "{a: -9223372036854775808L, b: -2, c: 0}",
        "{a: -9223372036854775808L, b: -1L, c: -1, d: 5L}",
    ),
    // Order, across types.
    (
        r#"{$min: {a: "x", b: 0, c: 5}}"#,
        "{a: 1, b: 1}",
        "{a: 1, b: 0, c: 5}",
    ),
    (
        r#"{$max: {a: "x", b: 0, c: 5}}"#,
        "{a: 1, b: 1}",
        r#"{a: "x", b: 1, c: 5}"#,
    ),
    ("{$max: {a: 1L}}", "{a: 1}", "{a: 1}"),
    // Fields that move.
    (
        r#"{$rename: {a: "b"}}"#,
        "{a: 1, b: 3, c: 2}",
        "{b: 1, c: 2}",
    ),
    (
        r#"{$rename: {a: "x.y", b: "z"}}"#,
        "{a: [1], c: 2}",
        "{c: 2, x: {y: [1]}}",
    ),
    (r#"{$rename: {a: "b"}}"#, "{a: 1, b: [1]}", "{b: 1}"),
    // Arrays.
    (
        "{$push: {a: 1, b: {$each: [2, 3]}, c: {b: 1}}}",
        "{a: [0], b: [1]}",
        "{a: [0, 1], b: [1, 2, 3], c: [{b: 1}]}",
    ),
    (
        "{$addToSet: {a: {$each: [1L, 2, 2L, 3]}, b: 1}}",
        "{a: [3, 1]}",
        "{a: [3, 1, 2], b: [1]}",
    ),
    (
        "{$addToSet: {a: {$each: [{x: 1L}, [1], null]}}}",
        "{a: [{x: 1}, [1]]}",
        "{a: [{x: 1}, [1], null]}",
    ),
    (
        "{$pop: {a: 1, b: -1, c: 1L, d: 1}}",
        "{a: [1, 2], b: [1, 2], c: []}",
        "{a: [1], b: [2], c: []}",
    ),
    (
        "{$pull: {a: 1L, b: {x: 1}, c: 1}}",
        "{a: [1, 2, 1], b: [{x: 1, y: 2}, {x: 2}, 1]}",
        "{a: [2], b: [{x: 2}, 1]}",
    ),
    (
        "{$pull: {a: {}, b: [1]}}",
        "{a: [{}, {x: 1}, 0], b: [[1], 1]}",
        "{a: [0], b: [1]}",
    ),
    (
        "{$pullAll: {a: [1L, {x: 1}], b: [1]}}",
        "{a: [1, {x: 1L}, {x: 1, y: 1}, 2]}",
        "{a: [{x: 1, y: 1}, 2]}",
    ),
    // Moments.
    (
        r#"{$currentDate: {a: true, b: {$type: "date"}, c: {$type: "timestamp"}}}"#,
        "{}",
        "{a: Date(9223372036854775807), b: Date(9223372036854775807), c: Stamp(11953490156293455873)}",
    ),
    // `_id` stays, and a replacement puts it first.
    ("{a: 1}", "{_id: 1, b: 2}", "{_id: 1, a: 1}"),
    ("{a: 1, _id: 1L}", "{b: 2, _id: 1}", "{_id: 1, a: 1}"),
    ("{a: 1, _id: 7}", "{b: 2}", "{_id: 7, a: 1}"),
    ("{}", "{_id: 1, b: 2}", "{_id: 1}"),
    ("{$set: {_id: 1L}}", "{_id: 1}", "{_id: 1L}"),
    // As many levels as a document may have.
    (
        "{$set: {a.a.a.a.a.a.a.a.a.a.a.a.a.a.a.a.a.a.a.a.a.a.a.a.a.a.a.a.a.a.a.a: 1}}",
        "{}",
        "{a: {a: {a: {a: {a: {a: {a: {a: {a: {a: {a: {a: {a: {a: {a: {a: {a: {a: {a: {a: {a: {a: {a: {a: {a: {a: {a: {a: {a: {a: {a: {a: 1}}}}}}}}}}}}}}}}}}}}}}}}}}}}}}}}",
    ),
];

/// Likewise, of documents that an upsert is to insert.
static INSERTED: [(&str, &str, &str); 5] = [
    ("{$setOnInsert: {a: 1}}", "{b: 2}", "{b: 2, a: 1}"),
    ("{$set: {_id: 3, a: 1}}", "{a: 2}", "{a: 1, _id: 3}"),
    ("{$inc: {a: 1}}", "{_id: 1}", "{_id: 1, a: 1}"),
    ("{a: 1}", "{b: 2, _id: 1}", "{_id: 1, a: 1}"),
    ("{a: 1, _id: 2}", "{b: 2}", "{_id: 2, a: 1}"),
];

/// What an update makes of a document; 0 where memory is wanting.
fn applied(
    alloc: Global,
    update: &Update,
    doc: &Document,
    inserting: bool,
) -> Result<Document, u32> {
    match apply(alloc, update, doc, 9_223_372_036_854_775_813, inserting) {
        Ok(made) => Ok(made),
        Err(ApplyRefused::Refused(kind)) => Err(kind),
        Err(ApplyRefused::NoMemory) => Err(0),
    }
}

/// The same of texts. None for other texts.
fn made(alloc: Global, update: &str, text: &str, inserting: bool) -> Option<Result<Document, u32>> {
    let doc = document(alloc, text)?;
    let value = value(alloc, update)?;
    let update = Update::read(alloc, &value, false).ok()?;
    let made = applied(alloc, &update, &doc, inserting);
    drop(update);
    Some(made)
}

/// Whether two documents have the same row, so the same names and values of the same types, in order.
fn identical(alloc: Global, one: &Document, other: &Document) -> Option<bool> {
    let one = to_row(alloc, one).ok()?;
    let other = to_row(alloc, other).ok()?;
    Some(equal(&one, &other))
}

fn is_so(alloc: Global, update: &str, text: &str, wanted: &str, inserting: bool) -> Option<bool> {
    let made = made(alloc, update, text, inserting)?.ok()?;
    let wanted = document(alloc, wanted)?;
    identical(alloc, &made, &wanted)
}

#[test]
fn documents_become_what_the_table_says(rt: HostRuntime) {
    for (update, text, wanted) in ROWS.iter() {
        assert!(rt;
            is_so(rt.alloc(), update, text, wanted, false) == Some(true),
            "{update}"
        );
    }
    for (update, text, wanted) in INSERTED.iter() {
        assert!(rt;
            is_so(rt.alloc(), update, text, wanted, true) == Some(true),
            "{update}"
        );
    }
}

/// The kind by which an update of a document is refused.
static REFUSED: [(u32, &str, &str); 33] = [
    (21, "{$set: {a.b: 1}}", "{a: 1}"),
    (21, "{$set: {a.b: 1}}", "{a: [1]}"),
    (21, "{$set: {a.01: 1}}", "{a: [0, 1]}"),
    (21, "{$inc: {a.b.c: 1}}", r#"{a: {b: "x"}}"#),
    (21, r#"{$rename: {a: "b.c"}}"#, "{a: 1, b: 2}"),
    (4, "{$set: {a.65536: 1}}", "{a: []}"),
    (4, "{$push: {a.99999999999999999999: 1}}", "{a: []}"),
    (7, "{$inc: {a: 1}}", "{a: 9223372036854775807L}"),
    (7, "{$inc: {a: -1L}}", "{a: -9223372036854775808L}"),
    (7, "{$mul: {a: 2}}", "{a: 9223372036854775807L}"),
    (18, "{$inc: {a: 1}}", r#"{a: "x"}"#),
    (18, "{$mul: {a: 2}}", "{a: null}"),
    (10, "{$push: {a: 1}}", "{a: 1}"),
    (10, "{$addToSet: {a: 1}}", "{a: {}}"),
    (10, "{$pop: {a: 1}}", r#"{a: "x"}"#),
    (10, "{$pull: {a: 1}}", "{a: 1}"),
    (10, "{$pullAll: {a: [1]}}", "{a: null}"),
    (10, "{$bit: {a: {or: 1}}}", r#"{a: "x"}"#),
    (10, r#"{$rename: {a.0: "b"}}"#, "{a: [1]}"),
    (10, r#"{$rename: {b: "a.0"}}"#, "{a: [1], b: 2}"),
    (26, "{$set: {_id: 2}}", "{_id: 1}"),
    (26, "{$unset: {_id: 1}}", "{_id: 1}"),
    (26, r#"{$rename: {_id: "b"}}"#, "{_id: 1}"),
    (26, "{$set: {_id.a: 2}}", "{_id: {a: 1}}"),
    (26, "{a: 1, _id: 2}", "{_id: 1}"),
    (26, "{a: 1, a: 1, _id: 2}", "{_id: 1}"),
    (6, "{a: 1, a: 2}", "{_id: 1}"),
    (6, "{_id: 1, a: 1, _id: 1}", "{_id: 1}"),
    (6, "{a: {b.c: 1}}", "{_id: 1}"),
    (6, "{$push: {a: {b: 1, $each: []}}}", "{}"),
    (
        6,
        "{$set: {a.a.a.a.a.a.a.a.a.a.a.a.a.a.a.a.a.a.a.a.a.a.a.a.a.a.a.a.a.a.a.a.a: 1}}",
        "{}",
    ),
    (18, "{$inc: {a: 1}, $set: {b.c: 1}}", r#"{a: "x", b: 1}"#),
    (21, "{$set: {b.c: 1}, $inc: {a: 1}}", r#"{a: "x", b: 1}"#),
];

/// Likewise, of documents that an upsert is to insert.
static REFUSED_INSERTED: [(u32, &str, &str); 6] = [
    (5, "{$set: {_id: [1]}}", "{}"),
    (5, "{a: 1, _id: /a/}", "{}"),
    (5, "{$set: {_id: /a/}}", "{_id: 1}"),
    (26, "{$set: {_id: 2}}", "{_id: 1}"),
    (26, "{a: 1, _id: [1]}", "{_id: 1}"),
    (26, "{$unset: {_id: 1}}", "{_id: 1}"),
];

fn kind(alloc: Global, update: &str, text: &str, inserting: bool) -> Option<u32> {
    made(alloc, update, text, inserting)?.err()
}

#[test]
fn updates_that_do_not_apply_are_refused_by_their_kinds(rt: HostRuntime) {
    for (wanted, update, text) in REFUSED.iter() {
        assert!(rt;
            kind(rt.alloc(), update, text, false) == Some(*wanted),
            "{update}"
        );
    }
    for (wanted, update, text) in REFUSED_INSERTED.iter() {
        assert!(rt;
            kind(rt.alloc(), update, text, true) == Some(*wanted),
            "{update}"
        );
    }
}

/// `{b: so many zeros}`, which has 13 bytes more.
fn zeros(alloc: Global, len: usize) -> Result<Document, NoMemory> {
    let bytes = Bytes::from_vec(vec![in alloc; 0; len]?);
    let name = Text::of(alloc, "b")?;
    let mut document = Document::new(alloc);
    document
        .push(name, Value::Bin(Binary { subtype: 0, bytes }))
        .map_err(|_| NoMemory)?;
    Ok(document)
}

/// The kind by which `{$set: {c: 1}}` of that document is refused, which makes 7 bytes more.
fn kind_of_zeros(alloc: Global, len: usize) -> Option<u32> {
    let doc = zeros(alloc, len).ok()?;
    let value = value(alloc, "{$set: {c: 1}}")?;
    let update = Update::read(alloc, &value, false).ok()?;
    let made = applied(alloc, &update, &doc, false);
    drop(update);
    made.err()
}

#[test]
fn a_document_grows_to_sixteen_mebibytes_and_no_more(rt: HostRuntime) {
    assert!(rt; kind_of_zeros(rt.alloc(), 16_777_196).is_none());
    assert!(rt; kind_of_zeros(rt.alloc(), 16_777_197) == Some(30));
}

/// A filter, and the document with which an upsert by it begins, or 21.
static SEEDS: [(&str, Option<&str>); 7] = [
    ("{}", Some("{}")),
    (
        "{a: 1, b: {$gt: 2}, c.d: {$eq: 3}}",
        Some("{a: 1, c: {d: 3}}"),
    ),
    (
        "{$and: [{a: 1}, {$and: [{b: 2}]}], c: {$in: [1]}}",
        Some("{a: 1, b: 2}"),
    ),
    ("{$or: [{a: 1}], $nor: [{b: 1}]}", Some("{}")),
    ("{a.b: 1, a: 2}", Some("{a: 2}")),
    ("{_id: 1, a: 1, _id: 2}", Some("{_id: 2, a: 1}")),
    ("{a: 1, a.b: 2}", None),
];

fn seeded(alloc: Global, text: &str) -> Option<Result<Document, ApplyRefused>> {
    let filter = filter(alloc, text)?;
    let seeded = seed(alloc, &filter);
    drop(filter);
    Some(seeded)
}

fn begins_so(alloc: Global, text: &str, wanted: &str) -> Option<bool> {
    let seeded = seeded(alloc, text)?.ok()?;
    let wanted = document(alloc, wanted)?;
    identical(alloc, &seeded, &wanted)
}

fn is_refused(alloc: Global, text: &str) -> bool {
    match seeded(alloc, text) {
        Some(Err(why)) => why == ApplyRefused::Refused(21),
        _ => false,
    }
}

#[test]
fn upserts_begin_with_the_equalities_of_their_filters(rt: HostRuntime) {
    for (text, wanted) in SEEDS.iter() {
        let is_so = match wanted {
            Some(wanted) => begins_so(rt.alloc(), text, wanted) == Some(true),
            None => is_refused(rt.alloc(), text),
        };
        assert!(rt; is_so, "{text}");
    }
}
