//! Documents that are no filters, each with the kind by which it is refused.

use filter_syntax::{Filter, FilterRefused};
use notation::document;
use std::alloc::Global;

/// A path of 101 parts.
const OF_101_PARTS: &str = concat!(
    "{a.a",
    ".a.a.a.a.a.a.a.a.a.a.a.a.a.a.a.a.a.a.a.a.a.a.a.a.a.a.a.a.a.a.a.a.a",
    ".a.a.a.a.a.a.a.a.a.a.a.a.a.a.a.a.a.a.a.a.a.a.a.a.a.a.a.a.a.a.a.a.a",
    ".a.a.a.a.a.a.a.a.a.a.a.a.a.a.a.a.a.a.a.a.a.a.a.a.a.a.a.a.a.a.a.a.a: 1}"
);

static ROWS: [(u32, &str); 86] = [
    // In the place of a path.
    (3, "{$foo: 1}"),
    (3, r#"{$regex: "a"}"#),
    (3, "{$near: 1}"),
    (3, "{$eq: 1}"),
    (3, "{$: 1}"),
    (29, "{$expr: true}"),
    (29, r#"{$where: "1"}"#),
    (29, "{$text: null}"),
    (29, "{$jsonSchema: {}}"),
    (4, "{$and: 1}"),
    (4, "{$or: []}"),
    (4, "{$nor: {}}"),
    (4, "{$and: /a/}"),
    (4, "{$or: [/a/]}"),
    (3, "{$nor: [{$foo: 1}, 1]}"),
    (4, "{$nor: [1, {$foo: 1}]}"),
    (9, r#"{"": 1}"#),
    (9, "{a.: 1}"),
    (9, "{a..b: {$foo: 1}}"),
    (9, "{.$a: 1}"),
    (3, "{a.$b: /a/}"),
    (9, OF_101_PARTS),
    (29, "{a: /a/}"),
    (3, "{a: {$gt: 1, $foo: 1}, b.: 1}"),
    (9, "{$comment: {$foo: 1}, b.: 1}"),
    // Beside a path.
    (3, "{a: {$foo: 1}}"),
    (3, "{a: {$foo: /a/}}"),
    (3, "{a: {$and: []}}"),
    (3, "{a: {$expr: 1}}"),
    (3, "{a: {$where: 1}}"),
    (3, "{a: {$comment: 1}}"),
    (3, "{a: {$gt: 1, b: 1}}"),
    (4, "{a: {$size: -1, $foo: 1}}"),
    (29, r#"{a: {$regex: "a"}}"#),
    (29, r#"{a: {$options: "i"}}"#),
    (29, "{a: {$geoIntersects: null}}"),
    (29, "{a: {$geoWithin: null}}"),
    (29, "{a: {$near: null}}"),
    (29, "{a: {$nearSphere: null}}"),
    (29, "{a: {$eq: /a/}}"),
    (29, "{a: {$lte: /a/}}"),
    (29, "{a: {$size: /a/}}"),
    (29, "{a: {$in: /a/}}"),
    (29, "{a: {$in: [1, /a/]}}"),
    (29, "{a: {$nin: [/a/]}}"),
    (29, "{a: {$all: [/a/]}}"),
    (4, "{a: {$type: [/a/]}}"),
    (4, "{a: {$in: 1}}"),
    (4, "{a: {$nin: {}}}"),
    (4, r#"{a: {$all: "a"}}"#),
    (29, "{a: {$all: [1, {$elemMatch: 1}]}}"),
    (4, "{a: {$not: 1}}"),
    (4, "{a: {$not: {}}}"),
    (4, "{a: {$not: {b: 1}}}"),
    (3, "{a: {$not: {$foo: 1}}}"),
    (29, "{a: {$not: /a/}}"),
    (4, "{a: {$elemMatch: []}}"),
    (3, "{a: {$elemMatch: {$gt: 1, b: 1}}}"),
    (3, "{a: {$elemMatch: {b: 1, $gt: 1}}}"),
    (3, "{a: {$elemMatch: {$gt: 1, $and: 1}}}"),
    (29, r#"{a: {$elemMatch: {$regex: "a"}}}"#),
    (29, "{a: {$elemMatch: {$expr: 1}}}"),
    (4, "{a: {$elemMatch: {$and: []}}}"),
    (9, r#"{a: {$elemMatch: {"": 1}}}"#),
    (4, r#"{a: {$exists: "true"}}"#),
    (4, "{a: {$exists: null}}"),
    (4, r#"{a: {$type: "Int"}}"#),
    (4, "{a: {$type: 0}}"),
    (4, "{a: {$type: 20}}"),
    (4, "{a: {$type: -2}}"),
    (4, "{a: {$type: true}}"),
    (4, "{a: {$type: []}}"),
    (4, r#"{a: {$type: ["int", "foo"]}}"#),
    (4, r#"{a: {$type: [["int"]]}}"#),
    (4, "{a: {$size: -1}}"),
    (4, r#"{a: {$size: "1"}}"#),
    (4, "{a: {$mod: 3}}"),
    (4, "{a: {$mod: [3]}}"),
    (4, "{a: {$mod: [3, 1, 0]}}"),
    (4, "{a: {$mod: [0, 1]}}"),
    (4, r#"{a: {$mod: ["3", 1]}}"#),
    (4, "{a: {$mod: [3, null]}}"),
    (4, "{a: {$bitsAllSet: -1L}}"),
    (4, "{a: {$bitsAllClear: [0]}}"),
    (4, "{a: {$bitsAnySet: null}}"),
    (4, r#"{a: {$bitsAnyClear: "1"}}"#),
];

/// The kind by which the document is refused. None for a filter, and for a text that is no document.
fn kind(alloc: Global, text: &str) -> Option<u32> {
    let document = document(alloc, text)?;
    match Filter::read(alloc, &document).err()? {
        FilterRefused::Refused(kind) => Some(kind),
        FilterRefused::NoMemory => None,
    }
}

#[test]
fn what_is_no_filter_is_refused_by_its_kind(rt: HostRuntime) {
    for (wanted, text) in ROWS.iter() {
        assert!(rt; kind(rt.alloc(), text) == Some(*wanted), "{text}");
    }
}
