use bson_values::{Bytes, List, NoMemory, Space, Text};
use outside::{Change, Kept, KeptRow, KeptTable};
use std::alloc::Global;

/// A change, with the second part of the table's name, which lies in the database `t`.
#[derive(Clone, Copy)]
pub enum Sample<'a> {
    Create(u64, &'a str),
    Drop(u64),
    Put(u64, u64, &'a [u8], &'a str),
    Cut(u64, &'a [u8]),
}

/// A table: its number, the second part of its name, and the place, the key and the text of each row.
#[derive(Clone, Copy)]
pub struct Wanted<'a> {
    number: u64,
    coll: &'a str,
    rows: &'a [(u64, &'a [u8], &'a str)],
}

pub static GIVEN: [Wanted<'static>; 1] = [Wanted {
    number: 4,
    coll: "old",
    rows: &[(9, b"k", "kept")],
}];

pub static CHANGES: [Sample<'static>; 13] = [
    Sample::Create(7, "new"),
    Sample::Put(7, 10, b"a", "one"),
    Sample::Put(7, 11, b"b", "two"),
    Sample::Put(7, 12, b"a", "three"),
    Sample::Put(7, 13, b"c", "four"),
    Sample::Cut(7, b"b"),
    Sample::Cut(7, b"d"),
    Sample::Create(8, "short"),
    Sample::Put(8, 20, b"a", "five"),
    Sample::Drop(8),
    Sample::Drop(8),
    Sample::Put(8, 21, b"a", "six"),
    Sample::Cut(8, b"a"),
];

pub static MADE: [Wanted<'static>; 2] = [
    Wanted {
        number: 4,
        coll: "old",
        rows: &[(9, b"k", "kept")],
    },
    Wanted {
        number: 7,
        coll: "new",
        rows: &[(10, b"a", "three"), (13, b"c", "four")],
    },
];

fn space(alloc: Global, coll: &str) -> Result<Space, NoMemory> {
    let db = Text::of(alloc, "t")?;
    let coll = Text::of(alloc, coll)?;
    Ok(Space { db, coll })
}

fn put(alloc: Global, number: u64, place: u64, key: &[u8], text: &str) -> Result<Change, NoMemory> {
    let key = Bytes::of(alloc, key)?;
    let text = Text::of(alloc, text)?;
    Ok(Change::Put {
        number,
        place,
        key,
        text,
    })
}

fn change(alloc: Global, sample: Sample) -> Result<Change, NoMemory> {
    match sample {
        Sample::Create(number, coll) => {
            let space = space(alloc, coll)?;
            Ok(Change::Create { number, space })
        }
        Sample::Drop(number) => Ok(Change::Drop { number }),
        Sample::Put(number, place, key, text) => put(alloc, number, place, key, text),
        Sample::Cut(number, key) => {
            let key = Bytes::of(alloc, key)?;
            Ok(Change::Cut { number, key })
        }
    }
}

pub fn changes(alloc: Global, samples: &[Sample]) -> Result<List<Change>, NoMemory> {
    let mut changes = List::new(alloc);
    for sample in samples {
        let change = change(alloc, *sample)?;
        changes.add(change)?;
    }
    Ok(changes)
}

fn row(alloc: Global) -> Result<KeptRow, NoMemory> {
    let key = Bytes::of(alloc, b"k")?;
    let text = Text::of(alloc, "kept")?;
    Ok(KeptRow {
        place: 9,
        key,
        text,
    })
}

fn table(alloc: Global) -> Result<KeptTable, NoMemory> {
    let space = space(alloc, "old")?;
    let mut rows = List::new(alloc);
    rows.add(row(alloc)?)?;
    Ok(KeptTable {
        number: 4,
        space,
        rows,
    })
}

/// The tables of `GIVEN`.
pub fn given(alloc: Global) -> Result<Kept, NoMemory> {
    let mut tables = List::new(alloc);
    tables.add(table(alloc)?)?;
    Ok(Kept { tables })
}

fn is_row(row: &KeptRow, (place, key, text): (u64, &[u8], &str)) -> bool {
    row.place == place && row.key.as_slice() == key && row.text.as_str() == text
}

fn is_table(table: &KeptTable, wanted: &Wanted) -> bool {
    let rows = table.rows.as_slice();
    table.number == wanted.number
        && table.space.coll.as_str() == wanted.coll
        && rows.len() == wanted.rows.len()
        && rows
            .iter()
            .zip(wanted.rows)
            .all(|(row, wanted)| is_row(row, *wanted))
}

/// Whether these are the tables.
pub fn is(kept: &Kept, wanted: &[Wanted]) -> bool {
    let tables = kept.tables.as_slice();
    tables.len() == wanted.len()
        && tables
            .iter()
            .zip(wanted)
            .all(|(table, wanted)| is_table(table, wanted))
}
