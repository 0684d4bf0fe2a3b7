//! Documents and texts that are shared, and documents of many pairs.

use super::samples::Sample::Int;
use super::samples::document;
use bson_values::{Document, List, NoMemory, Pair, Text, Unstorable, Value, storable};
use std::alloc::Global;
use std::test::Fail;

/// Of 0 bytes, of 22, which lie in the value, and of 23, which do not.
static TEXTS: [&str; 5] = [
    "",
    "abcdefghijklmnopqrstuv",
    "abcdefghijklmnopqrst\u{e9}",
    "abcdefghijklmnopqrstuvw",
    "abcdefghijklmnopqrstu\u{e9}",
];

#[test]
fn texts_are_copied_whatever_their_length(rt: HostRuntime) -> Result<(), Fail> {
    for (row, text) in TEXTS.iter().enumerate() {
        let copied = Text::of(rt.alloc(), text)?.copy(rt.alloc())?;
        assert!(rt; copied.as_str() == *text, "row {row}");
    }
    Ok(())
}

#[test]
fn texts_are_made_of_strings_whatever_their_length(rt: HostRuntime) -> Result<(), Fail> {
    for (row, text) in TEXTS.iter().enumerate() {
        let string = String::from_str(rt.alloc(), text)?;
        let made = Text::from_string(rt.alloc(), string)?;
        assert!(rt; made.as_str() == *text, "row {row}");
    }
    Ok(())
}

#[test]
fn a_copy_that_is_pushed_to_leaves_the_first(rt: HostRuntime) -> Result<(), Fail> {
    let first = document(rt.alloc(), &[("a", Int(1))])?;
    let mut other = first.copy(rt.alloc())?;
    let name = Text::of(rt.alloc(), "b")?;
    other.push(name, Value::Null).map_err(|_| NoMemory)?;
    assert_eq!(rt; (first.len(), other.len()), (1, 2));
    Ok(())
}

#[test]
fn a_copy_that_is_changed_leaves_the_first(rt: HostRuntime) -> Result<(), Fail> {
    let first = document(rt.alloc(), &[("a", Int(1))])?;
    let mut other = first.copy(rt.alloc())?;
    if let Some(place) = other.place("a") {
        *other.get_mut(place)? = Value::Int(2);
    }
    assert!(rt; matches!(first.get("a"), Some(Value::Int(1))));
    assert!(rt; matches!(other.get("a"), Some(Value::Int(2))));
    Ok(())
}

fn crosses<T: Send + Sync>(_value: &T) {}

#[test]
fn a_document_and_a_text_may_cross_threads(rt: HostRuntime) -> Result<(), Fail> {
    crosses(&Document::new(rt.alloc()));
    crosses(&Text::of(rt.alloc(), "a")?);
    Ok(())
}

/// The names of a wide document.
static NAMES: [&str; 66] = [
    "aa", "ab", "ac", "ad", "ae", "af", "ag", "ah", "ai", "aj", "ak", "al", "am", "an", "ao", "ap",
    "aq", "ar", "as", "at", "au", "av", "aw", "ax", "ay", "az", "ba", "bb", "bc", "bd", "be", "bf",
    "bg", "bh", "bi", "bj", "bk", "bl", "bm", "bn", "bo", "bp", "bq", "br", "bs", "bt", "bu", "bv",
    "bw", "bx", "by", "bz", "ca", "cb", "cc", "cd", "ce", "cf", "cg", "ch", "ci", "cj", "ck", "cl",
    "cm", "cn",
];

/// A document of the first of the names.
fn wide(alloc: Global, count: usize) -> Result<Document, NoMemory> {
    let mut document = Document::new(alloc);
    for name in NAMES.iter().take(count) {
        let name = Text::of(alloc, name)?;
        document.push(name, Value::Null).map_err(|_| NoMemory)?;
    }
    Ok(document)
}

/// How many names, one of all, and its place.
static PLACED: [(usize, &str, Option<usize>); 8] = [
    (64, "aa", Some(0)),
    (64, "cl", Some(63)),
    (64, "cm", None),
    (65, "aa", Some(0)),
    (65, "cl", Some(63)),
    (65, "cm", Some(64)),
    (65, "cn", None),
    (66, "cn", Some(65)),
];

#[test]
fn a_name_is_found_among_few_and_among_many(rt: HostRuntime) -> Result<(), Fail> {
    for (row, (count, name, place)) in PLACED.iter().enumerate() {
        let document = wide(rt.alloc(), *count)?;
        assert!(rt; document.place(name) == *place, "row {row}");
    }
    Ok(())
}

#[test]
fn a_name_that_many_pairs_have_twice_is_told_and_removed(rt: HostRuntime) -> Result<(), Fail> {
    let mut document = wide(rt.alloc(), 66)?;
    let name = Text::of(rt.alloc(), "ab")?;
    document.push(name, Value::Null).map_err(|_| NoMemory)?;
    assert_eq!(rt; storable(&document), Err(Unstorable::DuplicateKey(66)));
    if let Some(place) = document.place("ab") {
        document.remove(place)?;
    }
    assert_eq!(rt; document.place("ab"), Some(65));
    assert_eq!(rt; document.place("ac"), Some(1));
    Ok(())
}

#[test]
fn a_document_is_made_of_a_list(rt: HostRuntime) -> Result<(), Fail> {
    let mut pairs = List::new(rt.alloc());
    for name in NAMES.iter() {
        let name = Text::of(rt.alloc(), name)?;
        let value = Value::Null;
        pairs.push(Pair { name, value }).map_err(|_| NoMemory)?;
    }
    let document = Document::of(rt.alloc(), pairs)?;
    assert_eq!(rt; document.place("cn"), Some(65));
    Ok(())
}
