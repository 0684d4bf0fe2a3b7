//! Filters with documents of which they hold, and of which they do not.

use super::filters::filter;
use filter_match::matches;
use filter_syntax::Filter;
use notation::documents;
use std::alloc::Global;

/// A filter, the documents of which it holds, and others.
static ROWS: [(&str, &str, &str); 52] = [
    // What an equality takes: a value, or an element of an array, of any number type.
    (
        "{a: 1}",
        "[{a: 1}, {a: 1L}, {a: [1, 2]}]",
        r#"[{a: [[1]]}, {a: "1"}, {}]"#,
    ),
    (
        "{a: null}",
        "[{}, {a: null}, {a: [null]}]",
        "[{a: 0}, {a: []}]",
    ),
    (
        "{a: {$eq: [1, 2]}}",
        "[{a: [1, 2]}, {a: [0, [1, 2L]]}]",
        "[{a: [2, 1]}, {a: 1}]",
    ),
    (
        "{a: {b: 1}}",
        "[{a: {b: 1L}}, {a: [{b: 1}]}]",
        "[{a: {b: 1, c: 1}}, {a: {c: 1}}]",
    ),
    // Parts of a path: names, places, and both.
    (
        "{a.0: 1}",
        "[{a: [1]}, {a: {0: 1}}]",
        "[{a: 1}, {a: [0, 1]}]",
    ),
    (
        "{a.b: 1}",
        "[{a: {b: 1}}, {a: [{b: 2}, {b: [1]}]}]",
        "[{a: [[{b: 1}]]}, {a: 1}]",
    ),
    (
        "{a.1.b: 1}",
        "[{a: [0, {b: 1}]}, {a: [{1: {b: 1}}]}]",
        "[{a: [{b: 1}, 0]}, {a: {b: 1}}]",
    ),
    // A value that a path reaches in 6435 ways, as each array is passed by its place or by its documents, is asked once.
    (
        "{a.0.0.0.0.0.0.0.0.0.0.0.0.0.0.0.0.0.0.0.0.0.0: 1}",
        "[{a: [{0: [{0: [{0: [{0: [{0: [{0: [{0: [{0: [{0: [{0: [{0: [{0: [{0: [{0: [{0: 1}]}]}]}]}]}]}]}]}]}]}]}]}]}]}]}]",
        "[{a: [{0: [{0: [{0: [{0: [{0: [{0: [{0: [{0: [{0: [{0: [{0: [{0: [{0: [{0: [{0: 2}]}]}]}]}]}]}]}]}]}]}]}]}]}]}]}]",
    ),
    // Negations.
    (
        "{a: {$ne: 1}}",
        "[{}, {a: 2}, {a: [[1]]}]",
        "[{a: 1}, {a: [2, 1]}]",
    ),
    (
        "{a: {$ne: null}}",
        "[{a: 1}, {a: [[null]]}]",
        "[{}, {a: [1, null]}]",
    ),
    (
        "{a: {$nin: [1, null]}}",
        "[{a: 2}, {a: [[1]]}]",
        "[{}, {a: [null]}, {a: [3, 1]}]",
    ),
    (
        "{a: {$not: {$gt: 1}}}",
        r#"[{}, {a: 1}, {a: "x"}]"#,
        "[{a: 2}, {a: [0, 5]}]",
    ),
    (
        "{a: {$not: {$gt: 1, $lt: 4}}}",
        "[{a: 5}, {a: [0, 1]}]",
        "[{a: 2}, {a: [0, 5]}]",
    ),
    // Lists.
    (
        r#"{a: {$in: [1, "x"]}}"#,
        r#"[{a: 1L}, {a: [0, "x"]}]"#,
        r#"[{a: 2}, {a: [["x"]]}, {}]"#,
    ),
    (
        "{a: {$in: [null]}}",
        "[{}, {a: [null]}]",
        "[{a: 0}, {a: []}]",
    ),
    ("{a: {$in: []}}", "[]", "[{}, {a: null}, {a: []}]"),
    (
        "{a: {$all: [1, 2]}}",
        "[{a: [2, 1]}, {a: [1, 3, 2]}]",
        "[{a: [1]}, {a: [[1, 2]]}, {}]",
    ),
    (
        "{a: {$all: [[1]]}}",
        "[{a: [1]}, {a: [0, [1]]}]",
        "[{a: 1}, {a: [0]}]",
    ),
    ("{a: {$all: []}}", "[]", "[{}, {a: []}, {a: null}]"),
    // Order, within a type; different elements may meet two operators.
    (
        "{a: {$gt: 1, $lt: 4}}",
        "[{a: [0, 5]}, {a: 2}]",
        r#"[{a: "3"}, {a: [0, 1]}, {}]"#,
    ),
    (
        "{a: {$gt: 1}}",
        r#"[{a: 2L}, {a: ["0", 2]}]"#,
        r#"[{a: "2"}, {a: [[2]]}, {a: 1}, {}]"#,
    ),
    (
        "{a: {$gt: [1]}}",
        "[{a: [2]}, {a: [[1, 0]]}]",
        "[{a: 2}, {a: [0, [1]]}]",
    ),
    ("{a: {$gt: null}}", "[]", "[{}, {a: null}, {a: 1}]"),
    (
        "{a: {$gte: 2}}",
        "[{a: 2}, {a: [1, 3]}]",
        "[{a: 1}, {a: null}]",
    ),
    (
        "{a: {$gte: null}}",
        "[{}, {a: null}, {a: [null]}]",
        "[{a: 0}]",
    ),
    (
        r#"{a: {$lt: "b"}}"#,
        r#"[{a: "a"}, {a: [1, "a"]}]"#,
        r#"[{a: "b"}, {a: 0}]"#,
    ),
    (
        "{a: {$lte: 5}}",
        "[{a: 5L}, {a: [9, -1]}]",
        "[{a: 6}, {a: false}, {}]",
    ),
    (
        "{a: {$lte: null}}",
        "[{}, {a: null}, {a: [null]}]",
        "[{a: 0}, {a: []}]",
    ),
    // What is there, its type and its length.
    (
        "{a: {$exists: true}}",
        "[{a: null}, {a: []}]",
        "[{}, {b: 1}]",
    ),
    (
        "{a.b: {$exists: false}}",
        "[{}, {a: 1}, {a: []}]",
        "[{a: [{b: 1}, {}]}, {a: {b: null}}]",
    ),
    (
        r#"{a: {$type: "number"}}"#,
        r#"[{a: 1}, {a: ["x", 1L]}]"#,
        r#"[{a: "1"}, {a: [[1]]}, {}]"#,
    ),
    (
        r#"{a: {$type: ["string", 8]}}"#,
        r#"[{a: "x"}, {a: [true]}]"#,
        "[{a: 1}, {}]",
    ),
    (
        "{a: {$type: 4}}",
        "[{a: []}, {a: [1]}]",
        "[{a: 1}, {a: {}}]",
    ),
    (
        "{a: {$type: 10}}",
        "[{a: null}, {a: [0, null]}]",
        "[{a: 0}, {}]",
    ),
    ("{a: {$type: -1}}", "[]", "[{}, {a: null}, {a: -1}]"),
    (
        "{a: {$size: 2}}",
        "[{a: [1, 2]}, {a: [[], []]}]",
        "[{a: [[1, 2]]}, {a: 2}, {}]",
    ),
    // One element that meets all of it.
    (
        "{a: {$elemMatch: {$gt: 1, $lt: 4}}}",
        r#"[{a: [0, 2]}, {a: ["x", 3L]}, {a: [[3]]}]"#,
        "[{a: [0, 5]}, {a: 2}, {a: []}]",
    ),
    (
        "{a: {$elemMatch: {b: 1, c: 2}}}",
        "[{a: [{b: 1, c: 2}]}, {a: [0, {b: [1], c: 2}]}]",
        "[{a: [{b: 1}, {c: 2}]}, {a: {b: 1, c: 2}}]",
    ),
    (
        "{a: {$elemMatch: {$or: [{b: 1}, {c: 2}]}}}",
        "[{a: [{c: 2}]}, {a: [{b: 0}, {b: 1}]}]",
        "[{a: [1, {b: 2}]}, {a: {b: 1}}]",
    ),
    // Remainders, with the sign of the number.
    (
        "{a: {$mod: [4, -1]}}",
        "[{a: -5}, {a: [8, -1L]}]",
        r#"[{a: 3}, {a: "-1"}, {}]"#,
    ),
    (
        "{a: {$mod: [3, 1]}}",
        "[{a: 4}, {a: 7L}]",
        "[{a: -4}, {a: 3}]",
    ),
    (
        "{a: {$mod: [-1, 0]}}",
        "[{a: -9223372036854775808L}, {a: -7}]",
        r#"[{a: "0"}, {}]"#,
    ),
    (
        "{a: {$mod: [-1, 1]}}",
        "[]",
        "[{a: -9223372036854775808L}, {a: 1}]",
    ),
    // Bits of a number, in 64 bits with sign.
    (
        "{a: {$bitsAllSet: 5}}",
        "[{a: 5}, {a: -1}]",
        r#"[{a: 4}, {a: "5"}]"#,
    ),
    (
        "{a: {$bitsAllClear: 6}}",
        "[{a: 1}, {a: [3, -8]}]",
        "[{a: 2}, {a: -1}]",
    ),
    (
        "{a: {$bitsAnySet: 6}}",
        "[{a: 2}, {a: -2L}]",
        r#"[{a: 1}, {a: "2"}]"#,
    ),
    (
        "{a: {$bitsAnyClear: 6}}",
        "[{a: 2}, {a: [6, -3]}]",
        "[{a: 6}, {a: -1}]",
    ),
    // Filters of filters.
    ("{}", "[{}, {a: 1}]", "[]"),
    (
        "{a: 1, b: 2}",
        "[{a: 1, b: 2}, {a: [1], b: [2]}]",
        "[{a: 1}, {b: 2}]",
    ),
    (
        "{$and: [{a: 1}, {b: 2}]}",
        "[{b: 2, a: 1}, {a: [1], b: 2}]",
        "[{a: 1}, {b: 2}]",
    ),
    (
        "{$or: [{a: 1}, {b: 2}]}",
        "[{a: 1}, {b: 2}]",
        "[{a: 2}, {}]",
    ),
    (
        "{$nor: [{a: 1}, {b: 2}]}",
        "[{a: 2}, {}]",
        "[{a: 1}, {b: 2}]",
    ),
];

/// Whether the filter holds of all the documents of the first list, and of none of the second.
fn holds_of(alloc: Global, filter: &Filter, holds: &str, fails: &str) -> Option<bool> {
    let holds = documents(alloc, holds)?;
    let fails = documents(alloc, fails)?;
    let all = holds.as_slice().iter().all(|it| matches(filter, it));
    let none = !fails.as_slice().iter().any(|it| matches(filter, it));
    Some(all && none)
}

fn is_so(alloc: Global, text: &str, holds: &str, fails: &str) -> Option<bool> {
    let filter = filter(alloc, text)?;
    let is_so = holds_of(alloc, &filter, holds, fails);
    drop(filter);
    is_so
}

#[test]
fn filters_hold_where_the_table_says(rt: HostRuntime) {
    for (filter, holds, fails) in ROWS.iter() {
        assert!(rt;
            is_so(rt.alloc(), filter, holds, fails) == Some(true),
            "{filter}"
        );
    }
}
