//! Commits, of a table that was loaded, and of one that is gone.

use super::asks::{Ask, Change};
use super::kept::Sample;
use super::scripts::{Line, wrong_from};
use super::texts::{KEY_ONE, KEY_THREE, KEY_TWO, ONE, TWO, TWO_WITH_NINE};

static HELD: [Sample; 1] = [Sample(4, "t.c", &[(9, KEY_ONE, ONE), (12, KEY_TWO, TWO)])];

static REFUSED: [Line; 5] = [
    // The stamp is the last place.
    (
        Ask::Commit(4, 9, &[Change::Remove(KEY_ONE)], None),
        "Moved 12",
    ),
    (Ask::Commit(9, 12, &[Change::Remove(KEY_ONE)], None), "Gone"),
    // A row is there until the edits are made.
    (
        Ask::Commit(
            4,
            12,
            &[Change::Replace("{_id: 1, a: 9}"), Change::Remove(KEY_TWO)],
            Some("{_id: 2}"),
        ),
        "Duplicate",
    ),
    (
        Ask::SelectNamed("t.c"),
        concat!(
            r#"Rows 4 12 {"$s":{"$k":["_id"],"p":{"_id":{"t":"int"}}},"_id":1}"#,
            r#" {"$s":{"$k":["_id"],"p":{"_id":{"t":"int"}}},"_id":2}"#,
        ),
    ),
    // No number was taken.
    (Ask::Create("t.d"), "Inserted 13 13"),
];

static REFUSED_KEPT: [Sample; 2] = [
    Sample(4, "t.c", &[(9, KEY_ONE, ONE), (12, KEY_TWO, TWO)]),
    Sample(13, "t.d", &[]),
];

#[test]
fn a_commit_that_is_refused_changes_nothing(rt: HostRuntime) {
    let wrong = wrong_from(rt.alloc(), &HELD, &REFUSED, &REFUSED_KEPT);
    assert!(rt; wrong.is_none(), "{wrong:?}");
}

static MADE: [Line; 4] = [
    // The row is gone when it would be replaced, and no row has the last key.
    (
        Ask::Commit(
            4,
            12,
            &[
                Change::Remove(KEY_ONE),
                Change::Replace("{_id: 1, a: 9}"),
                Change::Remove(KEY_THREE),
            ],
            None,
        ),
        "Done 13",
    ),
    (
        Ask::SelectNamed("t.c"),
        r#"Rows 4 13 {"$s":{"$k":["_id"],"p":{"_id":{"t":"int"}}},"_id":2}"#,
    ),
    // A row that is replaced keeps its place, and one that is added comes last.
    (
        Ask::Commit(
            4,
            13,
            &[
                Change::Replace("{_id: 2, a: 9}"),
                Change::Replace("{_id: 3}"),
            ],
            Some("{_id: 1}"),
        ),
        "Done 14",
    ),
    (
        Ask::SelectNamed("t.c"),
        concat!(
            r#"Rows 4 14 {"$s":{"$k":["_id","a"],"p":{"_id":{"t":"int"},"a":{"t":"int"}}},"_id":2,"a":9}"#,
            r#" {"$s":{"$k":["_id"],"p":{"_id":{"t":"int"}}},"_id":1}"#,
        ),
    ),
];

static MADE_KEPT: [Sample; 1] = [Sample(
    4,
    "t.c",
    &[(12, KEY_TWO, TWO_WITH_NINE), (14, KEY_ONE, ONE)],
)];

#[test]
fn edits_are_made_in_order_and_then_a_row_is_added(rt: HostRuntime) {
    let wrong = wrong_from(rt.alloc(), &HELD, &MADE, &MADE_KEPT);
    assert!(rt; wrong.is_none(), "{wrong:?}");
}

static DROPPED: [Line; 5] = [
    (Ask::Drop("t.c"), "Dropped 1"),
    (Ask::Commit(4, 12, &[], None), "Gone"),
    // A new table of the name has a new number.
    (Ask::InsertNamed("t.c", "{_id: 1}"), "Inserted 13 14"),
    (Ask::Commit(4, 12, &[], None), "Gone"),
    (Ask::Commit(13, 14, &[], None), "Done 15"),
];

static DROPPED_KEPT: [Sample; 1] = [Sample(13, "t.c", &[(14, KEY_ONE, ONE)])];

#[test]
fn a_table_that_is_dropped_is_gone(rt: HostRuntime) {
    let wrong = wrong_from(rt.alloc(), &HELD, &DROPPED, &DROPPED_KEPT);
    assert!(rt; wrong.is_none(), "{wrong:?}");
}
