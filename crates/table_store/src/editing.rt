ghost use Rattle.std.specs.Prelude.{◌≡◌, ◌∷◌, ◌++◌, [], false, true, OnOk, OnErr};
ghost use Rattle.std.specs.Str.{bytes_eq};
ghost use Rattle.outside.specs.Causes.{HasCause, failure_of};
ghost use Rattle.outside.specs.Changes.{Goes};
ghost use Rattle.table_rows.specs.Rows.{above, has_key};
ghost use Rattle.table_store.specs.Edits.{changes_for, cuts, key_of, others, put_of, puts};
ghost use Rattle.table_store.specs.Ran.{AreReady, RanOn, StillTells};
ghost use Rattle.table_words.specs.Sound.{SoundAdded, SoundEdits};
ghost use Rattle.table_words.specs.Step.{added_at, edited, has_added};
ghost use Rattle.table_words.specs.declared.call.TableCall.TheVariants as call;

use crate::changes::{changes_of, put_of};
use crate::finding::place_of;
use crate::live::{LAST_NUMBER, LiveTables, refusal_of};
use bson_values::{Bytes, List};
use outside::{KeepError, Keeper};
use std::alloc::Global;
use table_rows::{Row, Table};
use table_words::{Edit, TableReply};

/// Whether the edit is of this key.
fn is_of(edit: &Edit, key: &Bytes) -> bool
    ensures { result ≡ bytes_eq key.now (key_of edit.now) }
{
    match edit {
        Edit::Replace(row) => key.as_slice() == row.key.as_slice(),
        Edit::Remove(other) => key.as_slice() == other.as_slice(),
    }
}

/// Makes one edit.
fn apply_edit(table: &mut Table, edit: Edit)
    ensures { table.new ≡ record table.old { rows = edited (edit ∷ []) table.old.rows } }
{
    match edit {
        Edit::Replace(row) => {
            let _was = table.replace(row);
        }
        Edit::Remove(key) => {
            let _was = table.remove(&key);
        }
    }
}

/// Makes the edits in order.
fn apply_edits(table: &mut Table, edits: List<Edit>)
    ensures { table.new ≡ record table.old { rows = edited edits table.old.rows } }
{
    for edit in edits.into_vec() {
        apply_edit(table, edit);
    }
}

/// Makes one edit, if it is of another key than this.
fn apply_other(table: &mut Table, edit: Edit, key: &Bytes)
    ensures { table.new ≡ record table.old { rows = edited (others key.now (edit ∷ [])) table.old.rows } }
{
    if !is_of(&edit, key) {
        apply_edit(table, edit);
    }
}

/// Makes the edits of other keys than this, in order.
fn apply_others(table: &mut Table, edits: List<Edit>, key: &Bytes)
    ensures { table.new ≡ record table.old { rows = edited (others key.now edits) table.old.rows } }
{
    for edit in edits.into_vec() {
        apply_other(table, edit, key);
    }
}

/// Makes the edits, once the keeper has them. All memory is taken before it is asked.
fn edit_rows<K: Keeper>(
    alloc: Global,
    keeper: &mut K,
    table: &mut Table,
    stamp: u64,
    edits: List<Edit>,
) -> Result<(), KeepError>
    ensures ok { OnOk result (table.new ≡ record table.old { stamp = stamp; rows = edited edits table.old.rows }) }
    ensures err { OnErr result (table.new ≡ table.old) }
    ensures told { Goes (K.told keeper.old) (K.told keeper.new)
        (puts table.old.number table.old.rows edits ++ cuts table.old.number edits) result }
    ensures cause { HasCause (K.faults keeper.old) (K.faults keeper.new) (failure_of result) }
{
    let Ok(changes) = changes_of(alloc, table, edits.as_slice()) else {
        return Err(KeepError::NoMemory);
    };
    match keeper.apply(changes.as_slice()) {
        Ok(()) => {
            apply_edits(table, edits);
            table.set_stamp(stamp);
            Ok(())
        }
        Err(refused) => Err(refused),
    }
}

/// The same, with a row that is added last. It goes in before the keeper is asked, and out again where that refuses.
fn edit_and_add<K: Keeper>(
    alloc: Global,
    keeper: &mut K,
    table: &mut Table,
    stamp: u64,
    edits: List<Edit>,
    row: Row,
) -> Result<(), KeepError>
    requires absent { has_key row.key table.old.rows ≡ false }
    requires above { above stamp table.old.rows ≡ true }
    ensures ok { OnOk result (table.new ≡ record table.old {
      stamp = stamp;
      rows = edited edits table.old.rows ++ record { place = stamp; row = row } ∷ [];
    }) }
    ensures err { OnErr result (table.new ≡ table.old) }
    ensures told { Goes (K.told keeper.old) (K.told keeper.new)
        ((puts table.old.number table.old.rows edits ++ cuts table.old.number edits) ++ put_of table.old.number stamp row ∷ []) result }
    ensures cause { HasCause (K.faults keeper.old) (K.faults keeper.new) (failure_of result) }
{
    let Ok(mut changes) = changes_of(alloc, table, edits.as_slice()) else {
        return Err(KeepError::NoMemory);
    };
    let Ok(put) = put_of(alloc, table.number(), stamp, &row) else {
        return Err(KeepError::NoMemory);
    };
    let Ok(()) = changes.add(put) else {
        return Err(KeepError::NoMemory);
    };
    let Ok(key) = row.key.copy(alloc) else {
        return Err(KeepError::NoMemory);
    };
    match table.insert(stamp, row) {
        Ok(()) => {}
        Err(_) => return Err(KeepError::NoMemory),
    }
    match keeper.apply(changes.as_slice()) {
        Ok(()) => {
            apply_others(table, edits, &key);
            table.set_stamp(stamp);
            Ok(())
        }
        Err(refused) => {
            let _gone = table.remove(&key);
            Err(refused)
        }
    }
}

fn change_rows<K: Keeper>(
    alloc: Global,
    keeper: &mut K,
    table: &mut Table,
    stamp: u64,
    edits: List<Edit>,
    added: Option<Row>,
) -> Result<(), KeepError>
    requires absent { has_added added table.old.rows ≡ false }
    requires above { above stamp table.old.rows ≡ true }
    ensures ok { OnOk result (table.new ≡ record table.old {
      stamp = stamp;
      rows = edited edits table.old.rows ++ added_at stamp added;
    }) }
    ensures err { OnErr result (table.new ≡ table.old) }
    ensures told { Goes (K.told keeper.old) (K.told keeper.new)
        (changes_for table.old.number stamp table.old.rows edits added) result }
    ensures cause { HasCause (K.faults keeper.old) (K.faults keeper.new) (failure_of result) }
{
    match added {
        Some(row) => edit_and_add(alloc, keeper, table, stamp, edits, row),
        None => edit_rows(alloc, keeper, table, stamp, edits),
    }
}

/// Whether the table has the key of the row that is to be added.
fn has_added(table: &Table, added: &Option<Row>) -> bool
    ensures { result ≡ has_added added.now table.now.rows }
{
    match added {
        Some(row) => table.has(&row.key),
        None => false,
    }
}

impl<K: Keeper> LiveTables<K> {
    /// Makes the edits of the table of that number, where it has that stamp still, and adds the row.
    pub(crate) fn commit(
        &mut self,
        number: u64,
        stamp: u64,
        edits: List<Edit>,
        added: Option<Row>,
    ) -> TableReply
        requires ready { AreReady K.told self.old }
        requires sound { SoundEdits edits × SoundAdded added }
        ensures ran { RanOn K.faults self.old self.new (call.Commit number stamp edits added) result }
        ensures told { StillTells K.told self.new }
    {
        let Some(place) = place_of(number, &self.live) else {
            return TableReply::Gone;
        };
        let kept = &mut self.live[place];
        if kept.table.stamp() != stamp {
            return TableReply::Moved(kept.table.stamp());
        }
        if has_added(&kept.table, &added) {
            return TableReply::Duplicate;
        }
        if self.next > LAST_NUMBER {
            return TableReply::Spent;
        }
        let given = self.next;
        match change_rows(
            self.alloc,
            &mut self.keeper,
            &mut kept.table,
            given,
            edits,
            added,
        ) {
            Ok(()) => {
                self.next += 1;
                TableReply::Done(given)
            }
            Err(refused) => refusal_of(refused),
        }
    }
}
