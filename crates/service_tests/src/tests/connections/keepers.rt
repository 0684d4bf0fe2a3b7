ghost use Rattle.std.specs.Prelude.{IfOk, IsSome};
ghost use Rattle.outside.specs.MemoryLink.{IsFreshMemoryLink};

use super::commands::{FIND, INSERT, INSERTED, INSERTED_SECOND};
use super::streams::{joined, numbers};
use bson_values::{Bytes, List, NoMemory, Space, Text};
use doc_server::{Finished, ferret};
use outside::{Bad, Kept, KeptRow, KeptTable, MemoryKeeper, MemoryLink, MemoryWorld};
use std::alloc::Global;
use std::test::Fail;

/// `{n: 0, writeErrors: [{index: 0, code: 1, errmsg: "the store could not keep the change"}], ok: 1}`, the third reply, to requestID 7.
const NOT_KEPT: [u8; 136] = [
    0x88, 0, 0, 0, 3, 0, 0, 0, 7, 0, 0, 0, 0xdd, 7, 0, 0, 0, 0, 0, 0, 0, 0x73, 0, 0, 0, 0x10, 0x6e,
    0, 0, 0, 0, 0, 4, 0x77, 0x72, 0x69, 0x74, 0x65, 0x45, 0x72, 0x72, 0x6f, 0x72, 0x73, 0, 0x52, 0,
    0, 0, 3, 0x30, 0, 0x4a, 0, 0, 0, 0x10, 0x69, 0x6e, 0x64, 0x65, 0x78, 0, 0, 0, 0, 0, 0x10, 0x63,
    0x6f, 0x64, 0x65, 0, 1, 0, 0, 0, 2, 0x65, 0x72, 0x72, 0x6d, 0x73, 0x67, 0, 0x24, 0, 0, 0, 0x74,
    0x68, 0x65, 0x20, 0x73, 0x74, 0x6f, 0x72, 0x65, 0x20, 0x63, 0x6f, 0x75, 0x6c, 0x64, 0x20, 0x6e,
    0x6f, 0x74, 0x20, 0x6b, 0x65, 0x65, 0x70, 0x20, 0x74, 0x68, 0x65, 0x20, 0x63, 0x68, 0x61, 0x6e,
    0x67, 0x65, 0, 0, 0, 0x10, 0x6f, 0x6b, 0, 1, 0, 0, 0, 0,
];

/// `{cursor: {firstBatch: [{_id: 1}, {_id: 2}], id: 0L, ns: "t.c"}, ok: 1}`, the fourth reply, to requestID 8.
const FOUND_TWO: [u8; 122] = [
    0x7a, 0, 0, 0, 4, 0, 0, 0, 8, 0, 0, 0, 0xdd, 7, 0, 0, 0, 0, 0, 0, 0, 0x65, 0, 0, 0, 3, 0x63,
    0x75, 0x72, 0x73, 0x6f, 0x72, 0, 0x50, 0, 0, 0, 4, 0x66, 0x69, 0x72, 0x73, 0x74, 0x42, 0x61,
    0x74, 0x63, 0x68, 0, 0x27, 0, 0, 0, 3, 0x30, 0, 0xe, 0, 0, 0, 0x10, 0x5f, 0x69, 0x64, 0, 1, 0,
    0, 0, 0, 3, 0x31, 0, 0xe, 0, 0, 0, 0x10, 0x5f, 0x69, 0x64, 0, 2, 0, 0, 0, 0, 0, 0x12, 0x69,
    0x64, 0, 0, 0, 0, 0, 0, 0, 0, 0, 2, 0x6e, 0x73, 0, 4, 0, 0, 0, 0x74, 0x2e, 0x63, 0, 0, 0x10,
    0x6f, 0x6b, 0, 1, 0, 0, 0, 0,
];

/// `{insert: "c", documents: [{a: 1}], $db: "t"}` with requestID 7.
const INSERT_NO_ID: [u8; 82] = [
    0x52, 0, 0, 0, 7, 0, 0, 0, 0, 0, 0, 0, 0xdd, 7, 0, 0, 0, 0, 0, 0, 0, 0x3d, 0, 0, 0, 2, 0x69,
    0x6e, 0x73, 0x65, 0x72, 0x74, 0, 2, 0, 0, 0, 0x63, 0, 4, 0x64, 0x6f, 0x63, 0x75, 0x6d, 0x65,
    0x6e, 0x74, 0x73, 0, 0x14, 0, 0, 0, 3, 0x30, 0, 0xc, 0, 0, 0, 0x10, 0x61, 0, 1, 0, 0, 0, 0, 0,
    2, 0x24, 0x64, 0x62, 0, 2, 0, 0, 0, 0x74, 0, 0,
];

/// `{cursor: {firstBatch: [{_id: id, a: 1}], id: 0L, ns: "t.c"}, ok: 1}`, the second reply, to requestID 8. The id is the second 1, then
/// worker 0, its connection 0, and operation 0 of that.
const FOUND_WITH_ID: [u8; 120] = [
    0x78, 0, 0, 0, 2, 0, 0, 0, 8, 0, 0, 0, 0xdd, 7, 0, 0, 0, 0, 0, 0, 0, 0x63, 0, 0, 0, 3, 0x63,
    0x75, 0x72, 0x73, 0x6f, 0x72, 0, 0x4e, 0, 0, 0, 4, 0x66, 0x69, 0x72, 0x73, 0x74, 0x42, 0x61,
    0x74, 0x63, 0x68, 0, 0x25, 0, 0, 0, 3, 0x30, 0, 0x1d, 0, 0, 0, 7, 0x5f, 0x69, 0x64, 0, 0, 0, 0,
    1, 0, 0, 0, 0, 0, 0, 0, 0, 0x10, 0x61, 0, 1, 0, 0, 0, 0, 0, 0x12, 0x69, 0x64, 0, 0, 0, 0, 0, 0,
    0, 0, 0, 2, 0x6e, 0x73, 0, 4, 0, 0, 0, 0x74, 0x2e, 0x63, 0, 0, 0x10, 0x6f, 0x6b, 0, 1, 0, 0, 0,
    0,
];

/// The reply to an insert of one document, the fifth, to requestID 7.
const INSERTED_FIFTH: [u8; 41] = [
    0x29, 0, 0, 0, 5, 0, 0, 0, 7, 0, 0, 0, 0xdd, 7, 0, 0, 0, 0, 0, 0, 0, 0x14, 0, 0, 0, 0x10, 0x6e,
    0, 1, 0, 0, 0, 0x10, 0x6f, 0x6b, 0, 1, 0, 0, 0, 0,
];

/// A link over the input, whose clock gives 1,000 twice.
fn link(alloc: Global, input: &[u8]) -> Result<MemoryLink, NoMemory>
    ensures { IfOk result IsFreshMemoryLink }
{
    let input = Bytes::of(alloc, input)?;
    let cuts = numbers(alloc, &[])?;
    let bad_reads = numbers(alloc, &[])?;
    let bad_writes = numbers(alloc, &[])?;
    let moments = numbers(alloc, &[1_000, 1_000])?;
    Ok(MemoryLink::new(alloc, input, cuts, bad_reads, bad_writes, moments))
}

/// Which calls for the keeper fail, and which applies of it.
type Failing = (&'static [u64], &'static [u64]);

fn world(
    alloc: Global,
    input: &[u8],
    tables: Kept,
    failing: Failing,
) -> Result<MemoryWorld, NoMemory>
    ensures { IfOk result (λ world. IsSome world.console) }
{
    let link = link(alloc, input)?;
    let bad = Bad {
        keeps: numbers(alloc, failing.0)?,
        applies: numbers(alloc, failing.1)?,
    };
    MemoryWorld::new(alloc, link, tables, bad)
}

fn run(
    alloc: Global,
    input: &[u8],
    tables: Kept,
    failing: Failing,
) -> Result<Finished<MemoryLink, MemoryKeeper>, Fail> {
    let mut words = Vec::new(alloc);
    words.push(String::from_str(alloc, "pipe")?)?;
    let mut world = world(alloc, input, tables, failing)?;
    Ok(ferret(alloc, &words, &mut world))
}

fn no_tables(alloc: Global) -> Kept {
    Kept {
        tables: List::new(alloc),
    }
}

/// What was written, and the keeper's count of faults.
pub(super) fn came_to(alloc: Global, input: &[u8], failing: Failing) -> Result<(Bytes, u64), Fail> {
    let Finished {
        console,
        tables,
        ..
    } = run(alloc, input, no_tables(alloc), failing)?;
    let (Some(ended), Some(closed)) = (console, tables) else {
        return Err(Fail::from(NoMemory));
    };
    let written = Bytes::of(alloc, ended.link.written().unwrap_or(b"untold"))?;
    Ok((written, closed.object.keeper().faults()))
}

/// An insert of that `_id`.
fn insert(id: u8) -> [u8; 84] {
    let mut message = INSERT;
    message[66] = id;
    message
}

#[test]
fn a_change_that_is_not_kept_is_a_write_error_and_may_be_asked_again(
    rt: HostRuntime,
) -> Result<(), Fail> {
    let input = joined(
        rt.alloc(),
        &[&insert(1), &insert(2), &insert(3), &FIND, &insert(3)],
    )?;
    let expected = joined(
        rt.alloc(),
        &[
            &INSERTED,
            &INSERTED_SECOND,
            &NOT_KEPT,
            &FOUND_TWO,
            &INSERTED_FIFTH,
        ],
    )?;
    let (written, faults) = came_to(rt.alloc(), input.as_slice(), (&[], &[2]))?;
    assert!(rt; written.as_slice() == expected.as_slice());
    assert_eq!(rt; faults, 1);
    Ok(())
}

#[test]
fn an_id_is_made_of_the_moment_and_the_numbers_of_the_operation(
    rt: HostRuntime,
) -> Result<(), Fail> {
    let input = joined(rt.alloc(), &[&INSERT_NO_ID, &FIND])?;
    let expected = joined(rt.alloc(), &[&INSERTED, &FOUND_WITH_ID])?;
    let (written, _) = came_to(rt.alloc(), input.as_slice(), (&[], &[]))?;
    assert!(rt; written.as_slice() == expected.as_slice());
    Ok(())
}

/// Table 4 with the text `{"_id":1}` at place 9, which is the row of no document.
fn bad_row(alloc: Global) -> Result<KeptTable, NoMemory> {
    let mut rows = List::new(alloc);
    rows.add(KeptRow {
        place: 9,
        key: Bytes::of(alloc, b"k")?,
        text: Text::of(alloc, "{\"_id\":1}")?,
    })?;
    Ok(KeptTable {
        number: 4,
        space: Space {
            db: Text::of(alloc, "t")?,
            coll: Text::of(alloc, "c")?,
        },
        rows,
    })
}

fn bad_tables(alloc: Global) -> Result<Kept, NoMemory> {
    let mut tables = List::new(alloc);
    tables.add(bad_row(alloc)?)?;
    Ok(Kept { tables })
}

/// The status, whether the keeper came back, and the table and place of a bad row.
type Told = (u8, bool, Option<(u64, u64)>);

fn told(alloc: Global, tables: Kept, failing: Failing) -> Result<Told, Fail> {
    let finished = run(alloc, &INSERT, tables, failing)?;
    Ok((finished.status, finished.keeper.is_some(), finished.bad))
}

#[test]
fn a_bad_row_is_told_by_its_table_and_its_place(rt: HostRuntime) -> Result<(), Fail> {
    let tables = bad_tables(rt.alloc())?;
    assert!(rt; told(rt.alloc(), tables, (&[], &[]))? == (3, true, Some((4, 9))));
    Ok(())
}

#[test]
fn a_keeper_that_is_not_given_is_status_2(rt: HostRuntime) -> Result<(), Fail> {
    let tables = no_tables(rt.alloc());
    assert!(rt; told(rt.alloc(), tables, (&[0], &[]))? == (2, false, None));
    Ok(())
}
