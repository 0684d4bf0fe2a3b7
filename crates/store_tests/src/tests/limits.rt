//! The last number, and the most tables.

use super::asks::Ask;
use super::kept::{Sample, many};
use super::scripts::{Line, first_wrong, wrong_from};
use super::texts::{KEY_ONE, KEY_TWO, ONE, TWO};
use outside::SureKeeper;
use std::alloc::Global;
use table_store::Tables;

static LAST: [Sample; 1] = [Sample(4, "t.c", &[(9_223_372_036_854_775_807, KEY_ONE, ONE)])];

static SPENT: [Line; 7] = [
    (Ask::Insert(4, "{_id: 1}"), "Duplicate"),
    (Ask::Insert(4, "{_id: 2}"), "Spent"),
    (Ask::InsertNamed("t.c", "{_id: 2}"), "Spent"),
    (Ask::InsertNamed("t.d", "{_id: 2}"), "Spent"),
    (Ask::Create("t.d"), "Spent"),
    (
        Ask::Commit(4, 9_223_372_036_854_775_807, &[], None),
        "Spent",
    ),
    (
        Ask::SelectNamed("t.c"),
        r#"Rows 4 9223372036854775807 {"$s":{"$k":["_id"],"p":{"_id":{"t":"int"}}},"_id":1}"#,
    ),
];

#[test]
fn behind_the_last_place_no_number_is_left(rt: HostRuntime) {
    let wrong = wrong_from(rt.alloc(), &LAST, &SPENT, &LAST);
    assert!(rt; wrong.is_none(), "{wrong:?}");
}

static ONE_IS_LEFT: [Sample; 1] = [Sample(4, "t.c", &[(9_223_372_036_854_775_806, KEY_ONE, ONE)])];

/// A table with its first row takes two numbers.
static ONE_IS_TAKEN: [Line; 3] = [
    (Ask::InsertNamed("t.d", "{_id: 2}"), "Spent"),
    (Ask::Insert(4, "{_id: 2}"), "Inserted 4 9223372036854775807"),
    (Ask::Create("t.d"), "Spent"),
];

static ALL_ARE_TAKEN: [Sample; 1] = [Sample(
    4,
    "t.c",
    &[
        (9_223_372_036_854_775_806, KEY_ONE, ONE),
        (9_223_372_036_854_775_807, KEY_TWO, TWO),
    ],
)];

#[test]
fn the_last_number_is_given(rt: HostRuntime) {
    let wrong = wrong_from(rt.alloc(), &ONE_IS_LEFT, &ONE_IS_TAKEN, &ALL_ARE_TAKEN);
    assert!(rt; wrong.is_none(), "{wrong:?}");
}

static FULL: [Line; 8] = [
    (Ask::InsertNamed("t.d", "{_id: 1}"), "Full"),
    (Ask::Create("t.d"), "Full"),
    (Ask::Create("t.c1"), "Exists"),
    (Ask::Insert(10_000, "{_id: 1}"), "Inserted 10000 10001"),
    (Ask::InsertNamed("t.c1", "{_id: 1}"), "Inserted 1 10002"),
    (Ask::Drop("t.c5"), "Dropped 1"),
    (Ask::InsertNamed("t.d", "{_id: 1}"), "Inserted 10003 10004"),
    (Ask::Create("t.c5"), "Full"),
];

fn sure_keeper(alloc: Global, count: u64) -> Option<SureKeeper> {
    let kept = many(alloc, count)?;
    SureKeeper::new(alloc, kept).ok()
}

fn wrong_with(alloc: Global, count: u64, script: &[Line]) -> Option<usize> {
    let Some(keeper) = sure_keeper(alloc, count) else {
        return Some(0);
    };
    let Ok(mut tables) = Tables::load(alloc, keeper) else {
        return Some(0);
    };
    let wrong = first_wrong(alloc, &mut tables, script);
    drop(tables);
    wrong
}

#[test]
fn ten_thousand_tables_are_as_many_as_there_may_be(rt: HostRuntime) {
    let wrong = wrong_with(rt.alloc(), 10_000, &FULL);
    assert!(rt; wrong.is_none(), "{wrong:?}");
}
