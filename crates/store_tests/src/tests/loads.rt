//! What a keeper has: its tables, or the first fault.

use super::asks::Ask;
use super::kept::{Sample, kept, many};
use super::scripts::{Line, wrong_from};
use super::texts::{KEY_ONE, KEY_THREE, KEY_TWO, ONE, THREE, TWO};
use outside::{Kept, SureKeeper};
use std::alloc::Global;
use table_store::{LoadRefused, Tables};

/// The row of `{a: 1}`.
const WITHOUT_ID: &str = r#"{"$s":{"$k":["a"],"p":{"a":{"t":"int"}}},"a":1}"#;

/// The row of `{_id: 1, a.b: 2}`, which may not be stored.
const WITH_A_DOT: &str =
    r#"{"$s":{"$k":["_id","a.b"],"p":{"_id":{"t":"int"},"a.b":{"t":"int"}}},"_id":1,"a.b":2}"#;

/// Kept tables, with the table and the place of their first fault.
static FAULTS: [(&[Sample], u64, u64); 24] = [
    // A number is from 1 on, rises, and is not past the last.
    (&[Sample(0, "t.c", &[])], 0, 0),
    (&[Sample(4, "t.c", &[]), Sample(4, "t.d", &[])], 4, 0),
    (&[Sample(4, "t.c", &[]), Sample(3, "t.d", &[])], 3, 0),
    (
        &[Sample(9_223_372_036_854_775_808, "t.c", &[])],
        9_223_372_036_854_775_808,
        0,
    ),
    // Names are valid, and no two are the same.
    (&[Sample(4, "t.$c", &[])], 4, 0),
    (&[Sample(4, "t.", &[])], 4, 0),
    (&[Sample(4, "t u.c", &[])], 4, 0),
    (
        &[
            Sample(4, "t.c", &[]),
            Sample(5, "t.d", &[]),
            Sample(6, "t.c", &[]),
        ],
        6,
        0,
    ),
    // A place rises, and is not past the last.
    (
        &[Sample(4, "t.c", &[(9, KEY_ONE, ONE), (9, KEY_TWO, TWO)])],
        4,
        9,
    ),
    (
        &[Sample(4, "t.c", &[(9, KEY_ONE, ONE), (8, KEY_TWO, TWO)])],
        4,
        8,
    ),
    (
        &[Sample(4, "t.c", &[(9_223_372_036_854_775_808, KEY_ONE, ONE)])],
        4,
        9_223_372_036_854_775_808,
    ),
    // A text is the row of a document that may be stored.
    (&[Sample(4, "t.c", &[(9, KEY_ONE, "")])], 4, 9),
    (&[Sample(4, "t.c", &[(9, KEY_ONE, r#"{"_id":1}"#)])], 4, 9),
    (&[Sample(4, "t.c", &[(9, KEY_ONE, WITH_A_DOT)])], 4, 9),
    // It has an `_id`, and this is its key.
    (&[Sample(4, "t.c", &[(9, KEY_ONE, WITHOUT_ID)])], 4, 9),
    (&[Sample(4, "t.c", &[(9, KEY_TWO, ONE)])], 4, 9),
    (&[Sample(4, "t.c", &[(9, b"", ONE)])], 4, 9),
    // No two rows of a table have one key.
    (
        &[Sample(
            4,
            "t.c",
            &[(9, KEY_ONE, ONE), (10, KEY_TWO, TWO), (11, KEY_ONE, ONE)],
        )],
        4,
        11,
    ),
    // Of several faults the first is told: in one table, its own before those of its rows, and those in order.
    (
        &[
            Sample(4, "t.c", &[]),
            Sample(4, "t.d", &[(9, KEY_TWO, ONE)]),
        ],
        4,
        0,
    ),
    (
        &[
            Sample(4, "t.c", &[(9, KEY_TWO, ONE)]),
            Sample(5, "t.$d", &[]),
        ],
        4,
        9,
    ),
    (
        &[
            Sample(4, "t.$c", &[]),
            Sample(5, "t.d", &[(9, KEY_TWO, ONE)]),
        ],
        4,
        0,
    ),
    (
        &[Sample(4, "t.c", &[(9, KEY_TWO, ONE), (8, KEY_TWO, TWO)])],
        4,
        9,
    ),
    (
        &[Sample(
            4,
            "t.c",
            &[(9, KEY_ONE, ONE), (10, KEY_ONE, ONE), (11, KEY_THREE, ONE)],
        )],
        4,
        10,
    ),
    (
        &[
            Sample(4, "t.c", &[(9, KEY_ONE, ONE)]),
            Sample(5, "t.d", &[(9, KEY_ONE, ONE), (20, KEY_ONE, TWO)]),
            Sample(5, "t.e", &[]),
        ],
        5,
        20,
    ),
];

/// How many tables are loaded.
fn count(alloc: Global, kept: Kept) -> Result<usize, LoadRefused> {
    let Ok(keeper) = SureKeeper::new(alloc, kept) else {
        return Err(LoadRefused::NoMemory);
    };
    match Tables::load(alloc, keeper) {
        Ok(tables) => Ok(tables.len()),
        Err((refused, _)) => Err(refused),
    }
}

fn count_of(alloc: Global, samples: &[Sample]) -> Result<usize, LoadRefused> {
    match kept(alloc, samples) {
        Some(kept) => count(alloc, kept),
        None => Err(LoadRefused::NoMemory),
    }
}

#[test]
fn the_first_fault_is_told_by_its_table_and_its_place(rt: HostRuntime) {
    for (row, (samples, table, place)) in FAULTS.iter().enumerate() {
        let counted = count_of(rt.alloc(), samples);
        let wanted = Err(LoadRefused::BadKept {
            table: *table,
            place: *place,
        });
        assert!(rt; counted == wanted, "row {row}: {counted:?}");
    }
}

fn count_of_many(alloc: Global, tables: u64) -> Result<usize, LoadRefused> {
    match many(alloc, tables) {
        Some(kept) => count(alloc, kept),
        None => Err(LoadRefused::NoMemory),
    }
}

#[test]
fn one_table_more_than_ten_thousand_is_a_fault(rt: HostRuntime) {
    let one_more = LoadRefused::BadKept {
        table: 10_001,
        place: 0,
    };
    assert_eq!(rt; count_of_many(rt.alloc(), 10_001), Err(one_more));
}

/// Places are told apart in one table alone, and may be below its number.
static LOADED: [Sample; 3] = [
    Sample(4, "t.c", &[(0, KEY_TWO, TWO), (2, KEY_ONE, ONE)]),
    Sample(5, "u.c", &[(2, KEY_ONE, ONE), (9, KEY_THREE, THREE)]),
    Sample(7, "t.d", &[]),
];

/// A stamp is the last place, or without rows the number; the next number is above all numbers and places.
static STAMPS: [Line; 5] = [
    (
        Ask::SelectNamed("t.c"),
        concat!(
            r#"Rows 4 2 {"$s":{"$k":["_id"],"p":{"_id":{"t":"int"}}},"_id":2}"#,
            r#" {"$s":{"$k":["_id"],"p":{"_id":{"t":"int"}}},"_id":1}"#,
        ),
    ),
    (
        Ask::SelectNamed("u.c"),
        concat!(
            r#"Rows 5 9 {"$s":{"$k":["_id"],"p":{"_id":{"t":"int"}}},"_id":1}"#,
            r#" {"$s":{"$k":["_id"],"p":{"_id":{"t":"int"}}},"_id":3}"#,
        ),
    ),
    (Ask::SelectNamed("t.d"), "Rows 7 7"),
    (Ask::ListDatabases, "Names t u"),
    (Ask::Create("t.e"), "Inserted 10 10"),
];

static LOADED_AND_ONE: [Sample; 4] = [
    Sample(4, "t.c", &[(0, KEY_TWO, TWO), (2, KEY_ONE, ONE)]),
    Sample(5, "u.c", &[(2, KEY_ONE, ONE), (9, KEY_THREE, THREE)]),
    Sample(7, "t.d", &[]),
    Sample(10, "t.e", &[]),
];

#[test]
fn what_is_kept_is_loaded_with_its_stamps(rt: HostRuntime) {
    let wrong = wrong_from(rt.alloc(), &LOADED, &STAMPS, &LOADED_AND_ONE);
    assert!(rt; wrong.is_none(), "{wrong:?}");
}
