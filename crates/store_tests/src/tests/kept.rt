//! Kept tables, from rows of samples.

use bson_values::{Bytes, List, Space, Text};
use outside::{Keeper, Kept, KeptRow, KeptTable};
use std::alloc::Global;

/// A table: its number, the name of its collection, and the place, the key and the text of each row.
#[derive(Clone, Copy)]
pub struct Sample(
    pub u64,
    pub &'static str,
    pub &'static [(u64, &'static [u8], &'static str)],
);

/// The space of a name, up to its first dot and behind it, valid or not.
pub fn space(alloc: Global, name: &str) -> Option<Space> {
    let (db, coll) = name.split_once('.')?;
    let db = Text::of(alloc, db).ok()?;
    let coll = Text::of(alloc, coll).ok()?;
    Some(Space { db, coll })
}

fn row(alloc: Global, (place, key, text): (u64, &[u8], &str)) -> Option<KeptRow> {
    let key = Bytes::of(alloc, key).ok()?;
    let text = Text::of(alloc, text).ok()?;
    Some(KeptRow { place, key, text })
}

fn rows(alloc: Global, samples: &[(u64, &[u8], &str)]) -> Option<List<KeptRow>> {
    let mut rows = List::new(alloc);
    for sample in samples {
        let row = row(alloc, *sample)?;
        rows.add(row).ok()?;
    }
    Some(rows)
}

fn table(
    alloc: Global,
    number: u64,
    name: &str,
    samples: &[(u64, &[u8], &str)],
) -> Option<KeptTable> {
    let space = space(alloc, name)?;
    let rows = rows(alloc, samples)?;
    Some(KeptTable {
        number,
        space,
        rows,
    })
}

pub fn kept(alloc: Global, samples: &[Sample]) -> Option<Kept> {
    let mut tables = List::new(alloc);
    for Sample(number, name, rows) in samples {
        let table = table(alloc, *number, name, rows)?;
        tables.add(table).ok()?;
    }
    Some(Kept { tables })
}

/// A table without rows, whose name ends in its number.
fn counted(alloc: Global, number: u64) -> Option<KeptTable> {
    let name = format!(in alloc; "t.c{number}").ok()?;
    table(alloc, number, name.as_str(), &[])
}

/// So many of them, from 1 on.
pub fn many(alloc: Global, count: u64) -> Option<Kept> {
    let mut tables = List::new(alloc);
    for before in 0..count {
        let table = counted(alloc, before.wrapping_add(1))?;
        tables.add(table).ok()?;
    }
    Some(Kept { tables })
}

fn is_row(row: &KeptRow, (place, key, text): (u64, &[u8], &str)) -> bool {
    row.place == place && row.key.as_slice() == key && row.text.as_str() == text
}

fn has_name(table: &KeptTable, name: &str) -> bool {
    match name.split_once('.') {
        Some((db, coll)) => table.space.db.as_str() == db && table.space.coll.as_str() == coll,
        None => false,
    }
}

fn is_table(table: &KeptTable, Sample(number, name, samples): &Sample) -> bool {
    let rows = table.rows.as_slice();
    table.number == *number
        && has_name(table, name)
        && rows.len() == samples.len()
        && rows
            .iter()
            .zip(*samples)
            .all(|(row, sample)| is_row(row, *sample))
}

fn is(kept: &Kept, samples: &[Sample]) -> bool {
    let tables = kept.tables.as_slice();
    tables.len() == samples.len()
        && tables
            .iter()
            .zip(samples)
            .all(|(table, sample)| is_table(table, sample))
}

/// Whether these are the keeper's tables.
pub fn keeps<K: Keeper>(alloc: Global, keeper: &mut K, samples: &[Sample]) -> bool {
    match keeper.load(alloc) {
        Ok(kept) => is(&kept, samples),
        Err(_) => false,
    }
}
