//! Documents with the filters that they spell.

use super::filters::filter;
use super::words::{put, put_number};
use bson_values::{List, Value};
use doc_paths::Path;
use filter_syntax::{Filter, Test};
use std::alloc::Global;

/// Each filter as `tell` writes it.
static ROWS: [(&str, &str); 20] = [
    ("{}", " All ( )"),
    ("{a: 1, a: 2L}", " All ( a Eq 1 a Eq 2 )"),
    (
        "{a.0.b: {$gt: 1, $lt: 4}}",
        " All ( a.0.b Gt 1 a.0.b Lt 4 )",
    ),
    (
        "{a: {$gte: 1, $lte: 4, $ne: 3}}",
        " All ( a Gte 1 a Lte 4 a Ne 3 )",
    ),
    ("{a: {}}", " All ( a Eq )"),
    ("{a: {b: 1, $gt: 2}}", " All ( a Eq )"),
    ("{a: {$eq: {$foo: 1}}}", " All ( a Eq )"),
    (
        "{$or: [{a: 1}, {}], $comment: /a/, $nor: [{b: 2}], $and: [{c: 3, d: 4}]}",
        " All ( AnyOf ( All ( a Eq 1 ) All ( ) ) NoneOf ( All ( b Eq 2 ) ) All ( All ( c Eq 3 d Eq 4 ) ) )",
    ),
    (
        "{a: {$in: [1, 2L], $nin: []}}",
        " All ( a OneOf 1 2 a NotOneOf )",
    ),
    ("{a: {$all: [1, {$gt: 1}]}}", " All ( a AllOf 1 )"),
    (
        "{a: {$not: {$gt: 1, $lt: 2}}}",
        " All ( a Not ( Gt 1 Lt 2 ) )",
    ),
    (
        "{a: {$exists: 0, $exists: true, $exists: -7L}}",
        " All ( a Exists 0 a Exists 1 a Exists 1 )",
    ),
    (
        r#"{a: {$type: "number", $type: 2}}"#,
        " All ( a OfType 16 18 a OfType 2 )",
    ),
    (
        r#"{a: {$type: ["minKey", -1, 255L, "maxKey", "double"]}}"#,
        " All ( a OfType 255 255 255 127 1 )",
    ),
    (
        "{a: {$size: 3L, $mod: [-1, -5L]}}",
        " All ( a Size 3 a Mod -1 -5 )",
    ),
    (
        "{a: {$bitsAllSet: 1, $bitsAllClear: 2, $bitsAnySet: 3, $bitsAnyClear: 4L}}",
        " All ( a BitsAllSet 1 a BitsAllClear 2 a BitsAnySet 3 a BitsAnyClear 4 )",
    ),
    (
        "{a: {$elemMatch: {$gt: 1, $lt: 2}}}",
        " All ( a ElemTests ( Gt 1 Lt 2 ) )",
    ),
    ("{a: {$elemMatch: {}}}", " All ( a ElemFilter All ( ) )"),
    (
        "{a: {$elemMatch: {$comment: null, b: 1}}}",
        " All ( a ElemFilter All ( b Eq 1 ) )",
    ),
    (
        "{a: {$elemMatch: {$or: [{b: 1}]}}}",
        " All ( a ElemFilter All ( AnyOf ( All ( b Eq 1 ) ) ) )",
    ),
];

fn name(test: &Test) -> &'static str {
    match test {
        Test::Eq(_) => "Eq",
        Test::Ne(_) => "Ne",
        Test::OneOf(_) => "OneOf",
        Test::NotOneOf(_) => "NotOneOf",
        Test::Not(_) => "Not",
        Test::Gt(_) => "Gt",
        Test::Gte(_) => "Gte",
        Test::Lt(_) => "Lt",
        Test::Lte(_) => "Lte",
        Test::Exists(_) => "Exists",
        Test::OfType(_) => "OfType",
        Test::Size(_) => "Size",
        Test::AllOf(_) => "AllOf",
        Test::ElemTests(_) => "ElemTests",
        Test::ElemFilter(_) => "ElemFilter",
        Test::Mod { .. } => "Mod",
        Test::BitsAllSet(_) => "BitsAllSet",
        Test::BitsAllClear(_) => "BitsAllClear",
        Test::BitsAnySet(_) => "BitsAnySet",
        Test::BitsAnyClear(_) => "BitsAnyClear",
    }
}

/// The number that the value is; nothing for other values.
fn tell_value(out: &mut String, value: &Value) {
    match value {
        Value::Int(number) => put_number(out, i64::from(*number)),
        Value::Long(number) => put_number(out, *number),
        _ => {}
    }
}

fn tell_values(out: &mut String, values: &List<Value>) {
    for value in values.as_slice() {
        tell_value(out, value);
    }
}

fn tell_types(out: &mut String, codes: &List<u8>) {
    for code in codes.as_slice() {
        put_number(out, i64::from(*code));
    }
}

fn tell_count(out: &mut String, number: u64) {
    let _ = write!(out, " {number}");
}

fn tell_path(out: &mut String, path: &Path) {
    let mut before = " ";
    for part in path.parts() {
        let _ = out.push_str(before);
        let _ = out.push_str(part.as_str());
        before = ".";
    }
}

/// The operator's name, and what it takes.
#[cycle(tell)]
fn tell_test(out: &mut String, test: &Test) {
    put(out, name(test));
    match test {
        Test::Eq(value) | Test::Ne(value) | Test::Gt(value) | Test::Gte(value) => tell_value(
            out, value,
        ),
        Test::Lt(value) | Test::Lte(value) => tell_value(out, value),
        Test::OneOf(values) | Test::NotOneOf(values) | Test::AllOf(values) => tell_values(
            out, values,
        ),
        Test::Not(tests) | Test::ElemTests(tests) => tell_tests(out, tests),
        Test::Exists(wanted) => put_number(out, i64::from(*wanted)),
        Test::OfType(codes) => tell_types(out, codes),
        Test::ElemFilter(filter) => tell(out, filter.get()),
        Test::Mod { divisor, rest } => {
            put_number(out, *divisor);
            put_number(out, *rest);
        }
        Test::Size(number) | Test::BitsAllSet(number) | Test::BitsAllClear(number) => tell_count(
            out, *number,
        ),
        Test::BitsAnySet(number) | Test::BitsAnyClear(number) => tell_count(out, *number),
    }
}

#[cycle(tell)]
fn tell_tests(out: &mut String, tests: &List<Test>) {
    put(out, "(");
    for test in tests.as_slice() {
        tell_test(out, test);
    }
    put(out, ")");
}

#[cycle(tell)]
fn tell_filters(out: &mut String, name: &str, filters: &List<Filter>) {
    put(out, name);
    for filter in filters.as_slice() {
        tell(out, filter);
    }
    put(out, ")");
}

#[cycle(tell)]
fn tell(out: &mut String, filter: &Filter) {
    match filter {
        Filter::All(filters) => tell_filters(out, "All (", filters),
        Filter::AnyOf(filters) => tell_filters(out, "AnyOf (", filters),
        Filter::NoneOf(filters) => tell_filters(out, "NoneOf (", filters),
        Filter::On(path, test) => {
            tell_path(out, path);
            tell_test(out, test);
        }
    }
}

/// The filter that the text writes, as `tell` writes it.
fn told(alloc: Global, text: &str) -> Option<String> {
    let filter = filter(alloc, text)?;
    let mut out = String::new(alloc);
    tell(&mut out, &filter);
    drop(filter);
    Some(out)
}

#[test]
fn documents_spell_filters(rt: HostRuntime) {
    for (text, wanted) in ROWS.iter() {
        let told = told(rt.alloc(), text).unwrap_or(String::new(rt.alloc()));
        assert!(rt; told.as_str() == *wanted, "{text}: {told}");
    }
}
