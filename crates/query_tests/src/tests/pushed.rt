//! Filters with the conditions that they push down, and with documents whose rows meet them and do not.

use super::filters::filter;
use super::words::{put, put_number};
use bson_order::id_key;
use bson_values::{Bytes, Document, List, Value};
use jsonb_contain::{Cond, Json, meets, text};
use notation::documents;
use pushdown::{cond_of, pushed};
use std::alloc::Global;
use typed_json::to_row;

/// Each with the number of its conjuncts, and its condition as `tell` writes it: a key by its bytes.
static CONDITIONS: [(&str, u64, &str); 18] = [
    ("{}", 0, " All ( )"),
    ("{a: 1}", 1, " All ( AtKey a 1 )"),
    ("{a: null}", 0, " All ( )"),
    ("{_id: 1}", 1, " All ( KeyIs 18 1 0 0 0 0 0 0 0 )"),
    ("{a: {$gt: 1}}", 0, " All ( )"),
    ("{a: {b: 1}}", 0, " All ( )"),
    ("{a: [1]}", 0, " All ( )"),
    (
        r#"{$and: [{a: 1}, {b: {$in: [1, "x"]}}]}"#,
        2,
        r#" All ( AtKey a 1 Any ( AtKey b 1 AtKey b "x" ) )"#,
    ),
    ("{$or: [{a: 1}]}", 0, " All ( )"),
    ("{$nor: [{a: 1}]}", 0, " All ( )"),
    ("{a: {$in: [1, null]}}", 0, " All ( )"),
    ("{a: {$in: []}}", 1, " All ( Any ( ) )"),
    (
        "{a: {$gt: 1, $eq: 2}, b: true}",
        2,
        " All ( AtKey a 2 AtKey b true )",
    ),
    (
        r#"{_id: {$in: [1, ""]}}"#,
        1,
        " All ( Any ( KeyIs 18 1 0 0 0 0 0 0 0 KeyIs 2 1 0 0 0 0 0 0 0 0 ) )",
    ),
    (
        "{a.b: 1}",
        1,
        r#" All ( Any ( AtKey a {"b":1} AtKey a {"b":[1]} AtKey a [{"b":1}] AtKey a [{"b":[1]}] ) )"#,
    ),
    (
        "{a.b.c: 1}",
        1,
        concat!(
            r#" All ( Any ( AtKey a {"b":{"c":1}} AtKey a {"b":{"c":[1]}} AtKey a {"b":[{"c":1}]} AtKey a {"b":[{"c":[1]}]}"#,
            r#" AtKey a [{"b":{"c":1}}] AtKey a [{"b":{"c":[1]}}] AtKey a [{"b":[{"c":1}]}] AtKey a [{"b":[{"c":[1]}]}] ) )"#
        ),
    ),
    ("{a.0: 1}", 0, " All ( )"),
    ("{a.b.c.d: 1}", 0, " All ( )"),
];

fn tell_key(out: &mut String, key: &Bytes) {
    put(out, "KeyIs");
    for byte in key.as_slice() {
        put_number(out, i64::from(*byte));
    }
}

fn tell_json(alloc: Global, out: &mut String, json: &Json) {
    if let Ok(text) = text(alloc, json) {
        put(out, text.as_str());
    }
}

#[cycle(tell)]
fn tell_all(alloc: Global, out: &mut String, name: &str, conds: &List<Cond>) {
    put(out, name);
    for cond in conds.as_slice() {
        tell(alloc, out, cond);
    }
    put(out, ")");
}

#[cycle(tell)]
fn tell(alloc: Global, out: &mut String, cond: &Cond) {
    match cond {
        Cond::KeyIs(key) => tell_key(out, key),
        Cond::AtKey(name, json) => {
            put(out, "AtKey");
            put(out, name.as_str());
            tell_json(alloc, out, json);
        }
        Cond::Any(conds) => tell_all(alloc, out, "Any (", conds),
        Cond::All(conds) => tell_all(alloc, out, "All (", conds),
    }
}

/// The condition that the filter pushes down.
fn cond(alloc: Global, text: &str) -> Option<Cond> {
    let filter = filter(alloc, text)?;
    let cond = cond_of(alloc, &filter).ok();
    drop(filter);
    cond
}

/// The condition that the filter pushes down, as `tell` writes it.
fn told(alloc: Global, text: &str) -> Option<String> {
    let cond = cond(alloc, text)?;
    let mut out = String::new(alloc);
    tell(alloc, &mut out, &cond);
    drop(cond);
    Some(out)
}

#[test]
fn filters_push_their_conditions(rt: HostRuntime) {
    for (text, _, wanted) in CONDITIONS.iter() {
        let told = told(rt.alloc(), text).unwrap_or(String::new(rt.alloc()));
        assert!(rt; told.as_str() == *wanted, "{text}: {told}");
    }
}

fn many(alloc: Global, text: &str) -> Option<u64> {
    let filter = filter(alloc, text)?;
    let many = pushed(&filter);
    drop(filter);
    Some(many)
}

#[test]
fn filters_push_so_many_conjuncts(rt: HostRuntime) {
    for (text, wanted, _) in CONDITIONS.iter() {
        assert!(rt; many(rt.alloc(), text) == Some(*wanted), "{text}");
    }
}

/// A filter, documents whose rows meet what it pushes down, and others.
static ROWS: [(&str, &str, &str); 6] = [
    (
        "{a: 1}",
        "[{a: 1}, {a: [1, 2]}, {a: 1L}]",
        r#"[{a: [[1]]}, {a: "1"}, {}]"#,
    ),
    ("{a: null}", "[{}, {a: 0}, {a: null}]", "[]"),
    ("{a: {$in: []}}", "[]", "[{}, {a: []}]"),
    (
        "{a.b: 1}",
        "[{a: {b: 1}}, {a: [{b: 1}]}, {a: {b: [1]}}, {a: [{b: [1]}]}]",
        "[{a: [[{b: 1}]]}, {a: {b: 2}}]",
    ),
    (
        "{a.b.c: 1}",
        "[{a: [{b: [2, {c: [0, 1]}]}]}]",
        "[{a: {b: [[{c: 1}]]}}, {a: {b: 1, c: 1}}]",
    ),
    ("{a.0: 1}", "[{a: [1]}, {a: [2]}]", "[]"),
];

/// Whether the document's row, beside the key of 1, meets the condition.
fn is_met(alloc: Global, cond: &Cond, document: &Document) -> Option<bool> {
    let key = id_key(alloc, &Value::Int(1)).ok()?;
    let row = to_row(alloc, document).ok()?;
    Some(meets(cond, &key, &row))
}

/// Whether the rows of all documents of the list meet the condition, or, where that is wanted, of none.
fn are_met(alloc: Global, cond: &Cond, text: &str, wanted: bool) -> Option<bool> {
    let documents = documents(alloc, text)?;
    for document in documents.as_slice() {
        if is_met(alloc, cond, document)? != wanted {
            return Some(false);
        }
    }
    Some(true)
}

fn is_so(alloc: Global, filter: &str, met: &str, unmet: &str) -> Option<bool> {
    let cond = cond(alloc, filter)?;
    let met = are_met(alloc, &cond, met, true);
    let unmet = are_met(alloc, &cond, unmet, false);
    drop(cond);
    Some(met? && unmet?)
}

#[test]
fn rows_meet_conditions_where_the_table_says(rt: HostRuntime) {
    for (filter, met, unmet) in ROWS.iter() {
        assert!(rt;
            is_so(rt.alloc(), filter, met, unmet) == Some(true),
            "{filter}"
        );
    }
}
