//! Values that are no update, with the kinds of their refusals.

use notation::value;
use std::alloc::Global;
use update_syntax::{Update, UpdateRefused};

/// Refused as an update of one document.
static ROWS: [(u32, &str); 52] = [
    (29, "[{$set: {a: 1}}]"),
    (15, "1"),
    (15, r#""x""#),
    (15, "{$set: {a: 1}, b: 1}"),
    (15, "{a: 1, $set: {b: 1}}"),
    (15, "{$foo: {a: 1}}"),
    (15, "{$set: 1}"),
    (15, "{$set: {a: 1}, $unset: 1}"),
    (15, r#"{$set: {"": 1}, $foo: {a: 1}}"#),
    (15, r#"{$inc: {a: "x"}, b: 1}"#),
    (29, "{$set: {a.$: 1}}"),
    (29, "{$set: {a.$[].b: 1}}"),
    (29, r#"{$rename: {a: "b.$"}}"#),
    (29, "{$push: {a: {$each: [1], $slice: 2}}}"),
    (29, "{$push: {a: {$slice: 2, $each: 1}}}"),
    (29, "{$addToSet: {a: {$foo: 1}}}"),
    (29, "{$pull: {a: {$gt: 1}}}"),
    (29, "{$pull: {a: {b: 1, c: {$gt: 1}}}}"),
    (9, r#"{$set: {"": 1}}"#),
    (9, "{$set: {a..b: 1}}"),
    (9, "{$unset: {a.: 1}}"),
    (9, "{$set: {.$: 1}}"),
    (9, r#"{$rename: {a: ""}}"#),
    (9, r#"{$inc: {"": "x"}}"#),
    (4, "{$push: {a: {$each: 1, $slice: 2}}}"),
    (4, "{$push: {a: {$each: [1], b: 1}}}"),
    (4, "{$addToSet: {a: {$each: [1], $each: [2]}}}"),
    (4, "{$pop: {a: 2}}"),
    (4, r#"{$pop: {a: "1"}}"#),
    (4, "{$pullAll: {a: 1}}"),
    (4, "{$currentDate: {a: false}}"),
    (4, r#"{$currentDate: {a: {$type: "int"}}}"#),
    (4, "{$currentDate: {a: {}}}"),
    (4, r#"{$currentDate: {a: {$type: "date", b: 1}}}"#),
    (4, "{$currentDate: {a: 1}}"),
    (4, "{$bit: {a: {and: 1, or: 2}}}"),
    (4, "{$bit: {a: {not: 1}}}"),
    (4, r#"{$bit: {a: {and: "1"}}}"#),
    (4, "{$bit: {a: 1}}"),
    (4, "{$rename: {a: 1}}"),
    (18, r#"{$inc: {a: "1"}}"#),
    (18, "{$mul: {a: null}}"),
    (18, r#"{$inc: {a: "x"}, $set: {"": 1}}"#),
    (9, r#"{$set: {"": 1}, $inc: {a: "x"}}"#),
    (18, r#"{$set: {a: 1, a.b: 2}, $inc: {c: "x"}}"#),
    (22, "{$set: {a: 1, a.b: 2}}"),
    (22, "{$set: {a: 1}, $unset: {a: 1}}"),
    (22, "{$set: {a: 1, a-b: 2, a.b: 3}}"),
    (22, "{$set: {a.b.c: 1}, $inc: {x: 1, a.b: 1}}"),
    (22, r#"{$rename: {a: "a"}}"#),
    (22, r#"{$rename: {a: "b"}, $set: {b.c: 1}}"#),
    (22, r#"{$rename: {a: "b", c: "b"}}"#),
];

/// The kind by which the value is refused. None for an update, and for a text that is no value.
fn kind(alloc: Global, text: &str, multi: bool) -> Option<u32> {
    let value = value(alloc, text)?;
    match Update::read(alloc, &value, multi).err()? {
        UpdateRefused::Refused(kind) => Some(kind),
        UpdateRefused::NoMemory => None,
    }
}

#[test]
fn what_is_no_update_is_refused_by_its_kind(rt: HostRuntime) {
    for (wanted, text) in ROWS.iter() {
        assert!(rt; kind(rt.alloc(), text, false) == Some(*wanted), "{text}");
    }
}

#[test]
fn only_operators_update_many(rt: HostRuntime) {
    assert!(rt; kind(rt.alloc(), "{a: 1}", true) == Some(15));
    assert!(rt; kind(rt.alloc(), "{}", true) == Some(15));
    assert!(rt; kind(rt.alloc(), "{$set: {a: 1}}", true).is_none());
    assert!(rt; kind(rt.alloc(), "{$set: {}}", true).is_none());
}
