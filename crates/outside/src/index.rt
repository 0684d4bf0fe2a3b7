ghost use Rattle.std.specs.Prelude.{◌≡◌, ◌++◌, ◌∷◌, [], List as Seq, position, IfSome, Some};
ghost use Rattle.outside.specs.declared.kept.KeptRow.{KeptRow as Row};
ghost use Rattle.std.specs.Bool.{OnTrue};
ghost use Rattle.outside.specs.Changes.{has_key, cut_row};
ghost use Rattle.outside.specs.Rows.{entry_of, entries_of, IsIndexOf, FirstAt};

use crate::kept::KeptRow;
use bson_values::Bytes;
use keyed_rows::Keyed;
use std::alloc::Global;

/// The keys and the places of rows.
pub type Index = Keyed<()>;

/// Adds a row last, where its place is above all, its key is new, and memory is found.
fn add(alloc: Global, index: &mut Index, row: &KeptRow) -> bool
    ensures { OnTrue result (index.new ≡ index.old ++ entry_of row.now ∷ []) }
{
    if index.has(&row.key) || !index.is_above(row.place) {
        return false;
    }
    match row.key.copy(alloc) {
        Ok(key) => index.insert(row.place, key, ()).is_ok(),
        Err(_) => false,
    }
}

/// Adds a row last to an index, or gives the index up.
pub fn add_last(alloc: Global, index: &mut Option<Index>, row: &KeptRow)
    ensures { (rows : Seq Row) → IsIndexOf index.old rows → IsIndexOf index.new (rows ++ row.now ∷ []) }
{
    let added = match index {
        Some(index) => add(alloc, index, row),
        None => true,
    };
    if !added {
        *index = None;
    }
}

/// Takes the row of a key out of an index.
pub fn take_out(index: &mut Option<Index>, key: &Bytes)
    ensures { (rows : Seq Row) → IsIndexOf index.old rows → IsIndexOf index.new (cut_row key.now rows) }
{
    if let Some(index) = index {
        index.remove(key);
    }
}

/// The keys and places of rows, where places rise, keys differ, and memory is found.
pub fn index_of(alloc: Global, rows: &[KeptRow]) -> Option<Index>
    ensures { IfSome result (λ index. index ≡ entries_of rows.now) }
{
    let mut index = Keyed::new(alloc);
    for row in rows {
        if !add(alloc, &mut index, row) {
            return None;
        }
    }
    Some(index)
}

/// Where the row of a key stands.
pub fn place_in(index: &Index, rows: &[KeptRow], key: &Bytes) -> Option<usize>
    requires { index.now ≡ entries_of rows.now }
    ensures { FirstAt (has_key key.now) rows.now result }
{
    // With its length an index tells that its places rise.
    let _len = index.len();
    let entry = index.get(key)?;
    let place = entry.place;
    Some(rows.partition_point(|row| row.place < place))
}

/// Where the first row of a key stands, by looking through all.
pub fn place_among(rows: &[KeptRow], key: &Bytes) -> Option<usize>
    ensures { result ≡ position (has_key key.now) rows.now }
{
    rows.iter()
        .position(|row| key.as_slice() == row.key.as_slice())
}
