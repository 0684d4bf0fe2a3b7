//! Sorts, with documents and the order in which they stand then.

use bson_order::same;
use bson_values::{Document, List, Value};
use doc_shape::{Order, sort_stably};
use notation::{document, documents, value};
use std::alloc::Global;

/// A sort, documents, and their `_id`s once they are sorted.
static ROWS: [(&str, &str, &str); 15] = [
    // The key of an array is one of its elements, and that of an empty one is below null.
    (
        "{a: 1}",
        "[{_id: 1, a: [3, 1]}, {_id: 2, a: 2}, {_id: 3, a: []}, {_id: 4}]",
        "[3, 4, 1, 2]",
    ),
    (
        "{a: -1}",
        "[{_id: 1, a: [3, 1]}, {_id: 2, a: 2}, {_id: 3, a: []}, {_id: 4}]",
        "[1, 2, 4, 3]",
    ),
    (
        "{a: 1}",
        "[{_id: 1, a: [[]]}, {_id: 2, a: null}, {_id: 3, a: []}, {_id: 4, a: {}}]",
        "[3, 2, 4, 1]",
    ),
    // Several keys, and documents of which none comes first.
    (
        "{a: 1, b: -1}",
        "[{_id: 1, a: 1, b: 1}, {_id: 2, a: 1, b: 2}, {_id: 3, a: 0, b: 0}, {_id: 4, a: 1L, b: 1}]",
        "[3, 2, 1, 4]",
    ),
    (
        "{a: -1L}",
        "[{_id: 1}, {_id: 2, a: 1}, {_id: 3, a: null}, {_id: 4, a: 1L}]",
        "[2, 4, 1, 3]",
    ),
    ("{}", "[{_id: 2}, {_id: 1}]", "[2, 1]"),
    ("{a: 1}", "[]", "[]"),
    (
        "{a: 1, a: -1}",
        "[{_id: 1, a: 2}, {_id: 2, a: 1}]",
        "[2, 1]",
    ),
    // Paths: through documents, arrays of documents, and places.
    (
        "{a.b: 1}",
        "[{_id: 1, a: [{b: 5}, {b: 2}]}, {_id: 2, a: {b: 3}}, {_id: 3, a: [{b: 1}, {}]}, {_id: 4, a: 7}]",
        "[3, 4, 1, 2]",
    ),
    (
        "{a.b: -1}",
        "[{_id: 1, a: [{b: 5}, {b: 2}]}, {_id: 2, a: {b: 3}}, {_id: 3, a: [1, [{b: 9}]]}]",
        "[1, 2, 3]",
    ),
    (
        "{a.1: 1}",
        "[{_id: 1, a: [0, 5]}, {_id: 2, a: [9, 4]}, {_id: 3, a: [9]}, {_id: 4, a: {1: 4}}, {_id: 5, a: [{1: 3}, 9]}]",
        "[3, 5, 2, 4, 1]",
    ),
    (
        "{a.1: -1}",
        "[{_id: 1, a: [0, 5]}, {_id: 2, a: [9, [4, 6]]}, {_id: 3, a: [9]}, {_id: 4, a: [{1: 3}, 7]}]",
        "[4, 2, 1, 3]",
    ),
    (
        "{a.0.b.0: -1}",
        "[{_id: 1, a: [{0: {b: [0]}}]}, {_id: 2, a: [{b: [1]}]}, {_id: 3, a: [{b: [2, 0]}, {b: [0]}]}]",
        "[3, 2, 1]",
    ),
    // A name that a path has twice.
    (
        "{a.0.0: 1}",
        "[{_id: 1, a: {0: {0: 2}}}, {_id: 2, a: [[1]]}, {_id: 3, a: [{0: 3}]}]",
        "[3, 2, 1]",
    ),
    // A key that is reached in 6435 ways, as each array is passed by its place or by its documents, is found once.
    (
        "{a.0.0.0.0.0.0.0.0.0.0.0.0.0.0.0.0.0.0.0.0.0.0: -1}",
        concat!(
            "[{_id: 1, a: [{0: [{0: [{0: [{0: [{0: [{0: [{0: [{0: [{0: [{0: [{0: [{0: [{0: [{0: [{0: 1}]}]}]}]}]}]}]}]}]}]}]}]}]}]}]}, ",
            "{_id: 2}, ",
            "{_id: 3, a: [{0: [{0: [{0: [{0: [{0: [{0: [{0: [{0: [{0: [{0: [{0: [{0: [{0: [{0: [{0: 2}]}]}]}]}]}]}]}]}]}]}]}]}]}]}]}]",
        ),
        "[3, 1, 2]",
    ),
];

fn has_id(doc: &Document, id: &Value) -> bool {
    match doc.get("_id") {
        Some(found) => same(found, id),
        None => false,
    }
}

fn have_ids(docs: &[Document], ids: &[Value]) -> bool {
    docs.len() == ids.len() && docs.iter().zip(ids.iter()).all(|(doc, id)| has_id(doc, id))
}

fn are_told(docs: &List<Document>, ids: &Value) -> bool {
    match ids {
        Value::Arr(ids) => have_ids(docs.as_slice(), ids.as_slice()),
        _ => false,
    }
}

fn sorted(alloc: Global, order: &str, docs: &str) -> Option<List<Document>> {
    let order = document(alloc, order)?;
    let order = Order::read(alloc, &order).ok()?;
    let mut docs = documents(alloc, docs)?;
    sort_stably(alloc, &order, &mut docs).ok()?;
    Some(docs)
}

fn is_so(alloc: Global, order: &str, docs: &str, ids: &str) -> Option<bool> {
    let docs = sorted(alloc, order, docs)?;
    let ids = value(alloc, ids)?;
    let is_so = are_told(&docs, &ids);
    drop(ids);
    Some(is_so)
}

#[test]
fn documents_are_sorted_as_the_table_says(rt: HostRuntime) {
    for (order, docs, ids) in ROWS.iter() {
        assert!(rt;
            is_so(rt.alloc(), order, docs, ids) == Some(true),
            "{order}"
        );
    }
}
