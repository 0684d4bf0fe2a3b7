ghost use Rattle.std.specs.Prelude.{◌≡◌, ◌++◌, ◌∷◌, [], IfOk, OnOk, OnErr};
ghost use Rattle.outside.specs.declared.kept.Change.TheVariants as change;
ghost use Rattle.table_store.specs.Edits.{cuts, put_of, puts};

use bson_values::{Bytes, List, NoMemory};
use outside::Change;
use std::alloc::Global;
use table_rows::{Row, Table};
use table_words::Edit;

/// The change that puts a row into a table.
pub(crate) fn put_of(alloc: Global, number: u64, place: u64, row: &Row) -> Result<Change, NoMemory>
    ensures { IfOk result (λ it. it ≡ put_of number place row.now) }
{
    let key = row.key.copy(alloc)?;
    let text = row.text.copy(alloc)?;
    Ok(Change::Put {
        number,
        place,
        key,
        text,
    })
}

fn cut_of(alloc: Global, number: u64, key: &Bytes) -> Result<Change, NoMemory>
    ensures { IfOk result (λ it. it ≡ change.Cut number key.now) }
{
    let key = key.copy(alloc)?;
    Ok(Change::Cut { number, key })
}

fn add_put(
    alloc: Global,
    changes: &mut List<Change>,
    number: u64,
    row: &Row,
) -> Result<(), NoMemory>
    ensures { OnOk result (changes.new ≡ changes.old ++ put_of number 0 row.now ∷ []) }
{
    let put = put_of(alloc, number, 0, row)?;
    changes.add(put)
}

fn add_cut(
    alloc: Global,
    changes: &mut List<Change>,
    number: u64,
    key: &Bytes,
) -> Result<(), NoMemory>
    ensures { OnOk result (changes.new ≡ changes.old ++ change.Cut number key.now ∷ []) }
{
    let cut = cut_of(alloc, number, key)?;
    changes.add(cut)
}

/// Adds the changes that replace rows. A row that is absent is not put, since the keeper would add it.
fn add_puts(
    alloc: Global,
    changes: &mut List<Change>,
    table: &Table,
    edits: &[Edit],
) -> Result<(), NoMemory>
    ensures { OnOk result (changes.new ≡ changes.old ++ puts table.now.number table.now.rows edits.now) }
{
    let number = table.number();
    let mut rest = edits;
    while let [edit, others @ ..] = rest {
        if let Edit::Replace(row) = edit {
            if table.has(&row.key) {
                add_put(alloc, changes, number, row)?;
            }
        }
        rest = others;
    }
    Ok(())
}

/// Adds the changes that remove rows.
fn add_cuts(
    alloc: Global,
    changes: &mut List<Change>,
    number: u64,
    edits: &[Edit],
) -> Result<(), NoMemory>
    ensures { OnOk result (changes.new ≡ changes.old ++ cuts number edits.now) }
{
    let mut rest = edits;
    while let [edit, others @ ..] = rest {
        if let Edit::Remove(key) = edit {
            add_cut(alloc, changes, number, key)?;
        }
        rest = others;
    }
    Ok(())
}

/// What the keeper is asked for edits: first all rows that are replaced, and then all that are removed.
pub(crate) fn changes_of(
    alloc: Global,
    table: &Table,
    edits: &[Edit],
) -> Result<List<Change>, NoMemory>
    ensures { IfOk result (λ changes. changes ≡ puts table.now.number table.now.rows edits.now ++ cuts table.now.number edits.now) }
{
    let mut changes = List::new(alloc);
    add_puts(alloc, &mut changes, table, edits)?;
    add_cuts(alloc, &mut changes, table.number(), edits)?;
    Ok(changes)
}
