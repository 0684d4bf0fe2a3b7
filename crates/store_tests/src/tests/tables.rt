//! A table of three rows, changed and looked at.

use bson_values::{Bytes, List, NoMemory, Text};
use jsonb_contain::{Cond, Json, TextRefused, read_text};
use std::alloc::Global;
use std::test::Fail;
use table_rows::{Row, Table};

static ROWS: [(u64, &[u8], &str); 3] = [
    (3, b"ada", r#"{"a":1}"#),
    (5, b"bob", r#"{"a":[1,2]}"#),
    (9, b"eve", r#"{"a":1,"b":2}"#),
];

fn row(alloc: Global, key: &[u8], text: &str) -> Result<Row, TextRefused> {
    let key = Bytes::of(alloc, key)?;
    let json = read_text(alloc, text)?;
    let row = Row::new(alloc, key, json)?;
    Ok(row.copy(alloc)?)
}

/// Whether a row found memory behind all others.
fn is_added(table: &mut Table, place: u64, row: Row) -> bool {
    if table.has(&row.key) || !table.is_above(place) {
        return false;
    }
    match table.insert(place, row) {
        Ok(()) => true,
        Err(_) => false,
    }
}

fn filled(alloc: Global) -> Result<Table, TextRefused> {
    let mut table = Table::new(alloc, 7);
    for (place, key, text) in &ROWS {
        let row = row(alloc, key, text)?;
        is_added(&mut table, *place, row);
    }
    Ok(table)
}

/// The texts of the rows that meet a condition, one after another.
fn texts(alloc: Global, table: &Table, cond: &Cond) -> Result<String, NoMemory> {
    let mut texts = String::new(alloc);
    for row in table.select(alloc, cond)?.as_slice() {
        texts.push_str(row.text.as_str())?;
    }
    Ok(texts)
}

fn found(alloc: Global, cond: &Cond) -> Result<String, TextRefused> {
    let table = filled(alloc)?;
    Ok(texts(alloc, &table, cond)?)
}

/// The row of a key.
fn by_key(alloc: Global) -> Result<String, TextRefused> {
    let key = Bytes::of(alloc, b"eve")?;
    found(alloc, &Cond::KeyIs(key))
}

/// The rows that have 2 under `a`.
fn by_value(alloc: Global) -> Result<String, TextRefused> {
    let name = Text::of(alloc, "a")?;
    found(alloc, &Cond::AtKey(name, Json::Whole(2)))
}

/// The middle row has another text, and the first is gone.
fn changed(alloc: Global) -> Result<Table, TextRefused> {
    let mut table = filled(alloc)?;
    let row = row(alloc, b"bob", r#"{"c":3}"#)?;
    table.replace(row);
    let key = Bytes::of(alloc, b"ada")?;
    table.remove(&key);
    Ok(table)
}

/// All rows that are left.
fn left(alloc: Global) -> Result<String, TextRefused> {
    let table = changed(alloc)?;
    Ok(texts(alloc, &table, &Cond::All(List::new(alloc)))?)
}

#[test]
fn rows_are_found_by_key(rt: HostRuntime) -> Result<(), Fail> {
    let found = by_key(rt.alloc())?;
    assert_eq!(rt; found.as_str(), r#"{"a":1,"b":2}"#);
    Ok(())
}

#[test]
fn rows_are_found_by_what_is_in_them(rt: HostRuntime) -> Result<(), Fail> {
    let found = by_value(rt.alloc())?;
    assert_eq!(rt; found.as_str(), r#"{"a":[1,2]}"#);
    Ok(())
}

#[test]
fn a_row_that_is_replaced_keeps_its_place(rt: HostRuntime) -> Result<(), Fail> {
    let left = left(rt.alloc())?;
    assert_eq!(rt; left.as_str(), r#"{"c":3}{"a":1,"b":2}"#);
    Ok(())
}
