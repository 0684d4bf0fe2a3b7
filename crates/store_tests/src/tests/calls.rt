//! Each call once that takes memory, and once that is refused.

use super::asks::Ask;
use super::kept::Sample;
use super::scripts::{Line, wrong_from};
use super::texts::{KEY_ONE, KEY_TWO, ONE, TWO};

static NOTHING: [Line; 8] = [
    (Ask::SelectNamed("t.c"), "Absent"),
    (Ask::Select(1, KEY_ONE), "Gone"),
    (Ask::Insert(1, "{_id: 1}"), "Gone"),
    (Ask::Commit(1, 1, &[], None), "Gone"),
    (Ask::Drop("t.c"), "Absent"),
    (Ask::DropDatabase("t"), "Dropped 0"),
    (Ask::ListTables("t"), "Names"),
    (Ask::ListDatabases, "Names"),
];

#[test]
fn a_store_begins_with_no_table(rt: HostRuntime) {
    let wrong = wrong_from(rt.alloc(), &[], &NOTHING, &[]);
    assert!(rt; wrong.is_none(), "{wrong:?}");
}

static ROWS: [Line; 8] = [
    (Ask::Create("t.c"), "Inserted 1 1"),
    (Ask::Create("t.c"), "Exists"),
    (Ask::InsertNamed("t.c", "{_id: 1}"), "Inserted 1 2"),
    // An int and a long of one number have one key.
    (Ask::InsertNamed("t.c", "{_id: 1L}"), "Duplicate"),
    (Ask::Insert(1, "{_id: 2}"), "Inserted 1 3"),
    (Ask::Insert(1, "{_id: 2, a: 9}"), "Duplicate"),
    (
        Ask::Select(1, KEY_TWO),
        r#"Rows 1 3 {"$s":{"$k":["_id"],"p":{"_id":{"t":"int"}}},"_id":2}"#,
    ),
    (
        Ask::SelectNamed("t.c"),
        concat!(
            r#"Rows 1 3 {"$s":{"$k":["_id"],"p":{"_id":{"t":"int"}}},"_id":1}"#,
            r#" {"$s":{"$k":["_id"],"p":{"_id":{"t":"int"}}},"_id":2}"#,
        ),
    ),
];

static ROWS_KEPT: [Sample; 1] = [Sample(1, "t.c", &[(2, KEY_ONE, ONE), (3, KEY_TWO, TWO)])];

#[test]
fn rows_are_inserted_and_selected(rt: HostRuntime) {
    let wrong = wrong_from(rt.alloc(), &[], &ROWS, &ROWS_KEPT);
    assert!(rt; wrong.is_none(), "{wrong:?}");
}

static NAMES: [Line; 12] = [
    (Ask::Create("t.c"), "Inserted 1 1"),
    (Ask::InsertNamed("u.d", "{_id: 1}"), "Inserted 2 3"),
    (Ask::InsertNamed("t.a", "{_id: 1}"), "Inserted 4 5"),
    (Ask::Create("u.e"), "Inserted 6 6"),
    (Ask::ListTables("t"), "Names c a"),
    (Ask::ListTables("v"), "Names"),
    (Ask::ListDatabases, "Names t u"),
    // A database stands where its oldest table does.
    (Ask::Drop("t.c"), "Dropped 1"),
    (Ask::ListDatabases, "Names u t"),
    (Ask::DropDatabase("u"), "Dropped 2"),
    (Ask::ListDatabases, "Names t"),
    (Ask::Create("t.c"), "Inserted 7 7"),
];

static NAMES_KEPT: [Sample; 2] = [
    Sample(4, "t.a", &[(5, KEY_ONE, ONE)]),
    Sample(7, "t.c", &[]),
];

#[test]
fn tables_and_databases_are_listed_in_order_of_creation(rt: HostRuntime) {
    let wrong = wrong_from(rt.alloc(), &[], &NAMES, &NAMES_KEPT);
    assert!(rt; wrong.is_none(), "{wrong:?}");
}
