//! Projections, with documents and what is shown of them.

use bson_order::same;
use bson_values::{Document, Value};
use doc_shape::{Shape, project};
use notation::document;
use std::alloc::Global;

/// A projection, a document, and what is shown of it.
static ROWS: [(&str, &str, &str); 17] = [
    // What is included.
    ("{a: 1}", "{b: 1, a: 2, _id: 3}", "{a: 2, _id: 3}"),
    (
        "{b: true, a: 2L, _id: 0}",
        "{_id: 1, a: 2, b: 3, c: 4}",
        "{a: 2, b: 3}",
    ),
    ("{_id: 1}", "{_id: 1, a: 2}", "{_id: 1}"),
    (
        "{a.b: 1, _id: 0}",
        "{_id: 1, a: {b: 1, c: 2}}",
        "{a: {b: 1}}",
    ),
    (
        "{a.b: 1}",
        "{a: [{b: 1, c: 2}, 5, [{b: 3}, 6, null]]}",
        "{a: [{b: 1}, [{b: 3}]]}",
    ),
    (
        "{a.b: 1, a.c: 1}",
        "{a: {d: 1, c: 2, b: 3}}",
        "{a: {c: 2, b: 3}}",
    ),
    ("{a.b: 1}", "{a: {c: 1}, b: 2}", "{a: {}}"),
    (
        "{a.b.c: 1, a.d: 1}",
        "{a: {b: [{c: 1, d: 2}], d: 3}}",
        "{a: {b: [{c: 1}], d: 3}}",
    ),
    ("{a.0: 1}", "{a: [1, {0: 2}]}", "{a: [{0: 2}]}"),
    (
        "{_id.x: 1}",
        "{_id: {x: 1, y: 2}, a: 3}",
        "{_id: {x: 1, y: 2}}",
    ),
    // What is excluded.
    ("{}", "{_id: 1, a: 2}", "{_id: 1, a: 2}"),
    ("{a: 0}", "{_id: 1, a: 2, b: 3}", "{_id: 1, b: 3}"),
    ("{_id: false}", "{_id: 1, a: 2}", "{a: 2}"),
    ("{_id: 1, a: 0}", "{_id: 1, a: 2, b: 3}", "{_id: 1, b: 3}"),
    (
        "{a.b: 0}",
        "{a: [{b: 1, c: 2}, 5, [{b: 3}]], b: 1}",
        "{a: [{c: 2}, 5, [{}]], b: 1}",
    ),
    (
        "{a.b: 0, a.c: 0L}",
        "{a: {b: 1, d: {b: 1}}, c: 1}",
        "{a: {d: {b: 1}}, c: 1}",
    ),
    ("{_id.x: 0}", "{_id: {x: 1, y: 2}}", "{_id: {y: 2}}"),
];

fn shown(alloc: Global, shape: &str, doc: &str) -> Option<Document> {
    let shape = document(alloc, shape)?;
    let shape = Shape::read(alloc, &shape).ok()?;
    let doc = document(alloc, doc)?;
    project(alloc, &shape, &doc).ok()
}

fn is_so(alloc: Global, shape: &str, doc: &str, wanted: &str) -> Option<bool> {
    let shown = Value::Doc(shown(alloc, shape, doc)?);
    let wanted = Value::Doc(document(alloc, wanted)?);
    let is_so = same(&shown, &wanted);
    drop(shown);
    drop(wanted);
    Some(is_so)
}

#[test]
fn documents_are_shown_as_the_table_says(rt: HostRuntime) {
    for (shape, doc, wanted) in ROWS.iter() {
        assert!(rt;
            is_so(rt.alloc(), shape, doc, wanted) == Some(true),
            "{shape}"
        );
    }
}
