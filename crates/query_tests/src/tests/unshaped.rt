//! Documents that are no sorts and no projections, each with the kind by which it is refused.

use doc_shape::{Order, Shape, ShapeRefused};
use notation::document;
use std::alloc::Global;

/// Documents with the kinds by which they are refused as sorts.
static SORTS: [(u32, &str); 17] = [
    (4, "{a: 2}"),
    (4, "{a: 0}"),
    (4, "{a: true}"),
    (4, r#"{a: "1"}"#),
    (4, "{a: {}}"),
    (4, "{a: {b: 1, $meta: 1}}"),
    (29, r#"{a: {$meta: "x"}}"#),
    (9, "{a..b: 1}"),
    (9, r#"{"": 1}"#),
    (9, "{a.: {$meta: 1}}"),
    (9, "{$a.: 1}"),
    (29, "{a.$b: 2}"),
    (29, "{$a: 1}"),
    (4, "{a: 2, b.: 1}"),
    (
        4,
        concat!(
            "{a: 1, b: 1, c: 1, d: 1, e: 1, f: 1, g: 1, h: 1, a: 1, b: 1, c: 1, d: 1, e: 1, f: 1, g: 1, h: 1, ",
            "a: 1, b: 1, c: 1, d: 1, e: 1, f: 1, g: 1, h: 1, a: 1, b: 1, c: 1, d: 1, e: 1, f: 1, g: 1, h: 1, ",
            "i: {$meta: 1}}"
        ),
    ),
    (
        9,
        concat!(
            "{a: 1, b: 1, c: 1, d: 1, e: 1, f: 1, g: 1, h: 1, a: 1, b: 1, c: 1, d: 1, e: 1, f: 1, g: 1, h: 1, ",
            "a: 1, b: 1, c: 1, d: 1, e: 1, f: 1, g: 1, h: 1, a: 1, b: 1, c: 1, d: 1, e: 1, f: 1, g: 1, h: 1, ",
            "i.: 1}"
        ),
    ),
    (
        29,
        concat!(
            "{a: 1, b: 1, c: 1, d: 1, e: 1, f: 1, g: 1, h: 1, a: 1, b: 1, c: 1, d: 1, e: 1, f: 1, g: 1, h: 1, ",
            "a: 1, b: 1, c: 1, d: 1, e: 1, f: 1, g: 1, h: 1, a: 1, b: 1, c: 1, d: 1, e: 1, f: 1, g: 1, h: 1, ",
            "$i: 1}"
        ),
    ),
];

/// Documents with the kinds by which they are refused as projections.
static PROJECTIONS: [(u32, &str); 19] = [
    (11, "{a: 1, b: 0}"),
    (11, "{a: 1, a.b: 1}"),
    (11, "{a.b: 0, c: 0, a: 0}"),
    (11, "{a: 1, a: 1}"),
    (11, "{a: 1, a-b: 1, a.b: 1}"),
    (11, "{_id: 0, _id.x: 0}"),
    (11, "{_id: 1, _id: 1}"),
    (29, "{a: {$slice: 1}}"),
    (29, "{a: {}}"),
    (29, r#"{a: "b"}"#),
    (4, "{a: null}"),
    (4, "{a: [1]}"),
    (4, "{a: /a/}"),
    (9, "{a..b: null}"),
    (9, "{$a.: 1}"),
    (29, "{a.$b: null}"),
    (29, "{a: 1, b: 0, c: {}}"),
    (4, "{a: 1, a: 1, c: null}"),
    (9, "{a: 1, b: 0, .c: 1}"),
];

fn kind(why: ShapeRefused) -> Option<u32> {
    match why {
        ShapeRefused::Refused(kind) => Some(kind),
        ShapeRefused::NoMemory => None,
    }
}

/// The kind by which the document is refused. None for a sort, and for a text that is no document.
fn kind_of_sort(alloc: Global, text: &str) -> Option<u32> {
    let document = document(alloc, text)?;
    match Order::read(alloc, &document) {
        Ok(_) => None,
        Err(why) => kind(why),
    }
}

fn kind_of_projection(alloc: Global, text: &str) -> Option<u32> {
    let document = document(alloc, text)?;
    match Shape::read(alloc, &document) {
        Ok(_) => None,
        Err(why) => kind(why),
    }
}

#[test]
fn what_is_no_sort_is_refused_by_its_kind(rt: HostRuntime) {
    for (wanted, text) in SORTS.iter() {
        assert!(rt; kind_of_sort(rt.alloc(), text) == Some(*wanted), "{text}");
    }
}

#[test]
fn what_is_no_projection_is_refused_by_its_kind(rt: HostRuntime) {
    for (wanted, text) in PROJECTIONS.iter() {
        assert!(rt;
            kind_of_projection(rt.alloc(), text) == Some(*wanted),
            "{text}"
        );
    }
}
