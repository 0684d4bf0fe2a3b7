//! A keeper that fails.

use super::asks::Ask;
use super::kept::{Sample, keeps, kept};
use super::scripts::{Line, first_wrong};
use super::texts::{KEY_ONE, KEY_THREE, KEY_TWO, ONE, THREE, TWO};
use bson_values::List;
use outside::MemoryKeeper;
use std::alloc::Global;
use std::test::Fail;
use table_store::Tables;

/// The third apply fails.
static THIRD_FAILS: [Line; 6] = [
    (Ask::InsertNamed("t.c", "{_id: 1}"), "Inserted 1 2"),
    (Ask::InsertNamed("t.c", "{_id: 2}"), "Inserted 1 3"),
    (Ask::InsertNamed("t.c", "{_id: 3}"), "Fault"),
    (
        Ask::SelectNamed("t.c"),
        concat!(
            r#"Rows 1 3 {"$s":{"$k":["_id"],"p":{"_id":{"t":"int"}}},"_id":1}"#,
            r#" {"$s":{"$k":["_id"],"p":{"_id":{"t":"int"}}},"_id":2}"#,
        ),
    ),
    (Ask::InsertNamed("t.c", "{_id: 3}"), "Inserted 1 4"),
    (
        Ask::SelectNamed("t.c"),
        concat!(
            r#"Rows 1 4 {"$s":{"$k":["_id"],"p":{"_id":{"t":"int"}}},"_id":1}"#,
            r#" {"$s":{"$k":["_id"],"p":{"_id":{"t":"int"}}},"_id":2}"#,
            r#" {"$s":{"$k":["_id"],"p":{"_id":{"t":"int"}}},"_id":3}"#,
        ),
    ),
];

static THREE_ROWS: [Sample; 1] = [Sample(
    1,
    "t.c",
    &[(2, KEY_ONE, ONE), (3, KEY_TWO, TWO), (4, KEY_THREE, THREE)],
)];

/// A keeper with no table, whose third apply fails.
fn keeper(alloc: Global) -> Option<MemoryKeeper> {
    let kept = kept(alloc, &[])?;
    let mut bad = List::new(alloc);
    bad.add(2).ok()?;
    MemoryKeeper::new(alloc, kept, bad).ok()
}

fn tables(alloc: Global) -> Option<Tables<MemoryKeeper>> {
    let keeper = keeper(alloc)?;
    Tables::load(alloc, keeper).ok()
}

#[test]
fn a_fault_changes_nothing_and_the_call_may_be_made_again(rt: HostRuntime) -> Result<(), Fail> {
    let mut tables = tables(rt.alloc()).ok_or("no tables")?;
    let wrong = first_wrong(rt.alloc(), &mut tables, &THIRD_FAILS);
    assert!(rt; wrong.is_none(), "{wrong:?}");
    let mut keeper = tables.keeper();
    assert_eq!(rt; keeper.faults(), 1);
    assert!(rt; keeps(rt.alloc(), &mut keeper, &THREE_ROWS));
    Ok(())
}
