use super::messages::{Words, message};
use bson_values::{Document, List, Text};
use bson_wire::Foreign;
use command_words::{Command, CommandRefused};
use op_msg::{Message, Sequence};
use std::alloc::Global;
use std::test::Fail;

const INSERT: &str = r#"{insert: "c", $db: "t"}"#;

const UPDATE: &str = r#"{update: "c", $db: "t"}"#;

const DELETE: &str = r#"{delete: "c", $db: "t"}"#;

const FIND: &str = r#"{find: "c", $db: "t"}"#;

const PING: &str = r#"{ping: 1, $db: "admin"}"#;

/// The kind by which the message is refused; 0 for one that is not. None where memory is wanting.
fn kind(alloc: Global, message: Message) -> Option<u32> {
    match Command::read(alloc, message) {
        Ok(_) => Some(0),
        Err(CommandRefused::Refused(kind)) => Some(kind),
        Err(CommandRefused::NoMemory) => None,
    }
}

fn kind_of(alloc: Global, words: Words) -> Option<u32> {
    let message = message(alloc, words)?;
    kind(alloc, message)
}

fn foreign(alloc: Global, body: &'static str) -> Option<u32> {
    let mut message = message(alloc, (body, "{}"))?;
    message.foreign = Some(Foreign { code: 1, place: 60 });
    kind(alloc, message)
}

#[test]
fn a_foreign_element_is_refused_before_all_else(rt: HostRuntime) -> Result<(), Fail> {
    for body in [PING, FIND, r#"{frobnicate: "c", $db: "t"}"#, "{}"] {
        assert_eq!(rt; foreign(rt.alloc(), body), Some(2), "{body}");
    }
    Ok(())
}

/// Messages, with the kinds by which they are refused; 0 stands for none.
type Rows = &'static [(Words, u32)];

/// The form of a message, and its insert's items.
static FORMS: Rows = &[
    (("{}", "{}"), 25),
    ((r#"{frobnicate: "c", $db: "t"}"#, "{}"), 25),
    ((r#"{find: "c", $db: "t", $db: "t"}"#, "{}"), 13),
    ((FIND, "{x: [], y: [], x: []}"), 13),
    ((PING, "{ping: []}"), 13),
    (
        (INSERT, "{documents: [{_id: 1}], documents: [{_id: 1}]}"),
        13,
    ),
    ((INSERT, "{$db: [{_id: 1}], documents: [{_id: 1}]}"), 13),
    (
        (
            r#"{insert: "c", documents: [{_id: 1}], $db: "t"}"#,
            "{documents: [{_id: 1}]}",
        ),
        13,
    ),
    (("{ping: 1}", "{}"), 14),
    ((r#"{insert: "c", documents: [{_id: 1}]}"#, "{}"), 14),
    (
        (
            r#"{insert: "c"}"#,
            "{$db: [{_id: 1}], documents: [{_id: 1}]}",
        ),
        14,
    ),
    ((r#"{find: "c", $db: 1}"#, "{}"), 17),
    ((r#"{find: "c", $db: "a b"}"#, "{}"), 27),
    ((r#"{insert: "c", documents: "x", $db: "t"}"#, "{}"), 17),
    ((r#"{insert: "c", documents: [1], $db: "t"}"#, "{}"), 17),
    ((r#"{insert: "", documents: [1], $db: "t"}"#, "{}"), 17),
    ((FIND, "{filter: []}"), 17),
    ((r#"{find: "", $db: "t"}"#, "{filter: [{_id: 1}]}"), 17),
    ((INSERT, "{documents: []}"), 8),
    ((INSERT, "{}"), 14),
    ((INSERT, "{x: [{_id: 1}]}"), 14),
    ((r#"{find: "", $db: "t"}"#, "{}"), 27),
    ((r#"{find: "$x", $db: "t"}"#, "{}"), 27),
    ((r#"{find: "system.x", $db: "t"}"#, "{}"), 27),
    ((r#"{find: ".x", $db: "t"}"#, "{}"), 27),
    ((INSERT, "{documents: [{_id: 1}], x: []}"), 29),
    ((FIND, "{x: [{_id: 1}]}"), 29),
    // Items are completed, or refused one by one.
    ((INSERT, "{documents: [{_id: 1}, {_id: 2}]}"), 0),
    ((INSERT, "{documents: [{_id: [1]}]}"), 0),
    (
        (
            r#"{insert: "c", documents: [{a: 2, _id: 1}], $db: "t"}"#,
            "{}",
        ),
        0,
    ),
    (
        (
            r#"{insert: "c", documents: [{_id: 1, a: {"a.b": 1}}], $db: "t"}"#,
            "{}",
        ),
        0,
    ),
];

/// Updates and deletes, whose items are looked into one after another.
static ITEMS: Rows = &[
    ((UPDATE, "{}"), 14),
    ((UPDATE, "{updates: []}"), 8),
    ((UPDATE, "{updates: [{q: {}, u: {$set: {a: 1}}}]}"), 0),
    ((r#"{update: "c", updates: [1], $db: "t"}"#, "{}"), 17),
    ((r#"{update: "c", updates: {}, $db: "t"}"#, "{}"), 17),
    ((UPDATE, "{updates: [{u: {}}]}"), 14),
    ((UPDATE, "{updates: [{q: {}}]}"), 14),
    ((UPDATE, "{updates: [{q: 1, u: {}}]}"), 17),
    ((UPDATE, "{updates: [{q: {}, u: 1}]}"), 17),
    ((UPDATE, r#"{updates: [{q: {}, u: {}, multi: "x"}]}"#), 17),
    ((UPDATE, "{updates: [{q: {}, u: {}, upsert: null}]}"), 17),
    (
        (UPDATE, "{updates: [{q: {}, u: {}, arrayFilters: []}]}"),
        29,
    ),
    // What is wrong in any item goes before what is missing, and that before what is unknown.
    ((UPDATE, "{updates: [{x: 1}, {q: 1}]}"), 17),
    ((UPDATE, "{updates: [{q: {}, u: {}, x: 1}, {q: {}}]}"), 14),
    ((r#"{update: "$c", $db: "t"}"#, "{updates: [{q: {}}]}"), 14),
    (
        (
            r#"{update: "$c", $db: "t"}"#,
            "{updates: [{q: {}, u: {}, x: 1}]}",
        ),
        27,
    ),
    // A name that is given twice: each is checked, the first counts.
    ((UPDATE, "{updates: [{q: {}, q: 1, u: {}}]}"), 17),
    ((UPDATE, "{updates: [{q: {}, q: {$foo: 1}, u: {}}]}"), 0),
    // Filters and updates are read last, item by item.
    (
        (UPDATE, "{updates: [{q: {$foo: 1}, u: {}, ordered: 1}]}"),
        29,
    ),
    ((UPDATE, "{updates: [{u: {$foo: {}}, q: {$foo: 1}}]}"), 3),
    (
        (
            UPDATE,
            "{updates: [{q: {}, u: {$foo: {}}}, {q: {$foo: 1}, u: {}}]}",
        ),
        15,
    ),
    ((UPDATE, "{updates: [{q: {}, u: []}]}"), 29),
    ((UPDATE, "{updates: [{q: {}, u: {a: 1}, multi: true}]}"), 15),
    (
        (
            UPDATE,
            r#"{updates: [{q: {}, u: {$set: {a: 1, "a.b": 2}}}]}"#,
        ),
        22,
    ),
    ((DELETE, "{}"), 14),
    ((DELETE, "{deletes: [{q: {}, limit: 1}], ordered: []}"), 17),
    (
        (
            r#"{delete: "c", deletes: [{q: {}, limit: 0}, 1], $db: "t"}"#,
            "{}",
        ),
        17,
    ),
    (
        (
            DELETE,
            "{deletes: [{q: {}, limit: 0}, {q: {a: 1}, limit: 1L}]}",
        ),
        0,
    ),
    ((DELETE, "{deletes: [{q: {}, limit: 2}]}"), 8),
    ((DELETE, "{deletes: [{q: {}, limit: -1}]}"), 8),
    ((DELETE, "{deletes: [{q: {}, limit: true}]}"), 17),
    ((DELETE, "{deletes: [{q: [], limit: 2}]}"), 17),
    ((DELETE, "{deletes: [{limit: 2, q: []}]}"), 8),
    ((DELETE, "{deletes: [{q: {}}]}"), 14),
    ((DELETE, "{deletes: [{limit: 1}]}"), 14),
    ((DELETE, "{deletes: [{q: {}, limit: 1, u: {}}]}"), 29),
    ((DELETE, "{deletes: [{q: {$foo: 1}, limit: 1}]}"), 3),
];

/// What goes together in a findAndModify.
static MODIFIES: Rows = &[
    ((r#"{findAndModify: "c", $db: "t"}"#, "{}"), 15),
    (
        (r#"{findAndModify: "c", remove: false, $db: "t"}"#, "{}"),
        15,
    ),
    ((r#"{findandmodify: "c", remove: 1, $db: "t"}"#, "{}"), 0),
    (
        (
            r#"{findAndModify: "c", remove: true, update: {}, $db: "t"}"#,
            "{}",
        ),
        15,
    ),
    (
        (
            r#"{findAndModify: "c", remove: true, new: true, $db: "t"}"#,
            "{}",
        ),
        15,
    ),
    (
        (
            r#"{findAndModify: "c", remove: true, upsert: 1L, $db: "t"}"#,
            "{}",
        ),
        15,
    ),
    (
        (
            r#"{findAndModify: "c", remove: true, new: false, upsert: 0, $db: "t"}"#,
            "{}",
        ),
        0,
    ),
    ((r#"{findAndModify: "c", remove: "x", $db: "t"}"#, "{}"), 17),
    ((r#"{findAndModify: "c", update: 1, $db: "t"}"#, "{}"), 17),
    (
        (r#"{findAndModify: "c", $db: "t"}"#, "{update: [{a: 1}]}"),
        17,
    ),
    ((r#"{findAndModify: "$c", $db: "t"}"#, "{}"), 27),
    (
        (
            r#"{findandmodify: "c", findAndModify: "c", remove: true, $db: "t"}"#,
            "{}",
        ),
        29,
    ),
    (
        (r#"{findAndModify: "c", query: {$foo: 1}, $db: "t"}"#, "{}"),
        15,
    ),
    (
        (
            r#"{findAndModify: "c", query: {$foo: 1}, update: [], $db: "t"}"#,
            "{}",
        ),
        3,
    ),
    ((r#"{findAndModify: "c", update: [], $db: "t"}"#, "{}"), 29),
    (
        (
            r#"{findAndModify: "c", update: {$set: {a: 1, "a.b": 2}}, $db: "t"}"#,
            "{}",
        ),
        22,
    ),
];

/// Filters, counts and keys.
static OPERANDS: Rows = &[
    ((r#"{find: "c", filter: {a: 1}, $db: "t"}"#, "{}"), 0),
    ((r#"{find: "c", filter: {$expr: {}}, $db: "t"}"#, "{}"), 29),
    ((r#"{find: "c", filter: {$foo: 1}, $db: "t"}"#, "{}"), 3),
    (
        (
            r#"{find: "c", filter: {a: {$gt: 1, b: 2}}, $db: "t"}"#,
            "{}",
        ),
        3,
    ),
    ((r#"{find: "c", filter: {"a..b": 1}, $db: "t"}"#, "{}"), 9),
    (
        (
            r#"{count: "c", query: {a: 1}, skip: 2, limit: -3L, $db: "t"}"#,
            "{}",
        ),
        0,
    ),
    ((r#"{count: "c", query: 1, $db: "t"}"#, "{}"), 17),
    ((r#"{count: "c", skip: "x", $db: "t"}"#, "{}"), 17),
    ((r#"{count: "c", limit: true, $db: "t"}"#, "{}"), 17),
    ((r#"{count: "c", skip: -1, $db: "t"}"#, "{}"), 8),
    // Fields are looked at in order, and before the filter is read.
    ((r#"{count: "c", skip: -1, query: 1, $db: "t"}"#, "{}"), 8),
    (
        (
            r#"{count: "c", query: {$foo: 1}, skip: -1, $db: "t"}"#,
            "{}",
        ),
        8,
    ),
    ((r#"{count: "$c", query: {$foo: 1}, $db: "t"}"#, "{}"), 27),
    ((r#"{count: "c", query: {$foo: 1}, $db: "t"}"#, "{}"), 3),
    ((r#"{count: "c", hint: "x", $db: "t"}"#, "{}"), 29),
    (
        (
            r#"{distinct: "c", key: "a.b", query: {a: 1}, $db: "t"}"#,
            "{}",
        ),
        0,
    ),
    ((r#"{distinct: "c", query: {a: 1}, $db: "t"}"#, "{}"), 14),
    ((r#"{distinct: "c", key: 1, $db: "t"}"#, "{}"), 17),
    ((r#"{distinct: "c", key: "", $db: "t"}"#, "{}"), 9),
    ((r#"{distinct: "c", key: "a.$b", $db: "t"}"#, "{}"), 29),
    // A bad path goes first, and the key before the filter.
    ((r#"{distinct: "c", key: "$a..b", $db: "t"}"#, "{}"), 9),
    (
        (
            r#"{distinct: "c", key: "a..b", query: {$foo: 1}, $db: "t"}"#,
            "{}",
        ),
        9,
    ),
    (
        (
            r#"{distinct: "c", key: "a", query: {$foo: 1}, $db: "t"}"#,
            "{}",
        ),
        3,
    ),
];

/// Sorts, projections and batches.
static SHAPES: Rows = &[
    (
        (
            concat!(
                r#"{find: "c", sort: {a: 1, b: 1, c: 1, d: 1, e: 1, f: 1, g: 1, h: 1, a: 1, b: 1, c: 1, d: 1, e: 1, f: 1, g: 1, h: 1, "#,
                r#"a: 1, b: 1, c: 1, d: 1, e: 1, f: 1, g: 1, h: 1, a: 1, b: 1, c: 1, d: 1, e: 1, f: 1, g: 1, h: 1, i: 1}, $db: "t"}"#
            ),
            "{}",
        ),
        4,
    ),
    ((r#"{find: "c", sort: {a: 2}, $db: "t"}"#, "{}"), 4),
    (
        (r#"{find: "c", sort: {a: {$meta: "x"}}, $db: "t"}"#, "{}"),
        29,
    ),
    ((r#"{find: "c", sort: {"a..b": 1}, $db: "t"}"#, "{}"), 9),
    (
        (r#"{find: "c", projection: {a: 1, b: 0}, $db: "t"}"#, "{}"),
        11,
    ),
    (
        (
            r#"{find: "c", projection: {a: 1, "a.b": 1}, $db: "t"}"#,
            "{}",
        ),
        11,
    ),
    (
        (
            r#"{find: "c", projection: {a: {$slice: 1}}, $db: "t"}"#,
            "{}",
        ),
        29,
    ),
    ((r#"{find: "c", projection: {a: null}, $db: "t"}"#, "{}"), 4),
    ((r#"{find: "c", skip: -1, $db: "t"}"#, "{}"), 8),
    ((r#"{find: "c", limit: -1L, $db: "t"}"#, "{}"), 8),
    ((r#"{find: "c", batchSize: -1, $db: "t"}"#, "{}"), 8),
    ((r#"{find: "c", sort: [], $db: "t"}"#, "{}"), 17),
    ((r#"{find: "c", singleBatch: "x", $db: "t"}"#, "{}"), 17),
    ((r#"{find: "c", collation: {}, $db: "t"}"#, "{}"), 29),
    // The filter is read before the sort, and that before the projection.
    (
        (
            r#"{find: "c", projection: {a: 1, b: 0}, sort: {"a..b": 1}, filter: {$foo: 1}, $db: "t"}"#,
            "{}",
        ),
        3,
    ),
    (
        (
            r#"{find: "c", projection: {a: 1, b: 0}, sort: {"a..b": 1}, $db: "t"}"#,
            "{}",
        ),
        9,
    ),
    // Of a findAndModify the sort before the update, and that before the fields.
    (
        (
            r#"{findAndModify: "c", update: [], sort: {a: 2}, query: {$foo: 1}, $db: "t"}"#,
            "{}",
        ),
        3,
    ),
    (
        (
            r#"{findAndModify: "c", update: [], sort: {a: 2}, $db: "t"}"#,
            "{}",
        ),
        4,
    ),
    (
        (
            r#"{findAndModify: "c", fields: {a: 1, b: 0}, update: [], $db: "t"}"#,
            "{}",
        ),
        29,
    ),
    (
        (
            r#"{findAndModify: "c", fields: {a: 1, b: 0}, remove: true, $db: "t"}"#,
            "{}",
        ),
        11,
    ),
];

#[test]
fn each_refusal_has_its_kind(rt: HostRuntime) -> Result<(), Fail> {
    for rows in [FORMS, ITEMS, MODIFIES, OPERANDS, SHAPES] {
        for ((body, beside), wanted) in rows {
            let told = kind_of(rt.alloc(), (body, beside));
            assert_eq!(rt; told, Some(*wanted), "{body} {beside}");
        }
    }
    Ok(())
}

/// A command of so many empty documents, which come in a sequence of that name.
fn of_many(alloc: Global, body: &'static str, name: &str, count: u32) -> Option<Message> {
    let mut message = message(alloc, (body, "{}"))?;
    let mut docs = List::new(alloc);
    for _ in 0..count {
        docs.add(Document::new(alloc)).ok()?;
    }
    let name = Text::of(alloc, name).ok()?;
    message.sequences.add(Sequence { name, docs }).ok()?;
    Some(message)
}

fn kind_of_many(alloc: Global, body: &'static str, name: &str, count: u32) -> Option<u32> {
    let message = of_many(alloc, body, name, count)?;
    kind(alloc, message)
}

/// Commands, the sequence of each, and the kind by which empty documents are refused in it.
static COUNTED: [(&str, &str, u32); 3] = [
    (INSERT, "documents", 0),
    (UPDATE, "updates", 14),
    (DELETE, "deletes", 14),
];

#[test]
fn a_command_has_1_to_1_000_items(rt: HostRuntime) -> Result<(), Fail> {
    for (body, name, empty) in &COUNTED {
        for (count, wanted) in [(0, 8), (1, *empty), (1_000, *empty), (1_001, 8)] {
            assert_eq!(rt;
                kind_of_many(rt.alloc(), body, name, count),
                Some(wanted),
                "{count} {name}"
            );
        }
    }
    Ok(())
}
